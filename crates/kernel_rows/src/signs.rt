// The signs of operators.
ghost use Rattle.std.specs.Prelude.{◌≡◌};
ghost use Rattle.kernel_meaning.specs.Signs.{sign_of};

use kernel_meaning::Sign;

/// The operator of a sign, or `None` where it is no sign of an operator on two values.
pub fn sign_of(word: &[u8]) -> Option<Sign>
    ensures { result ≡ sign_of word.now }
{
    match word {
        b"+" => Some(Sign::Add),
        b"-" => Some(Sign::Subtract),
        b"*" => Some(Sign::Multiply),
        b"/" => Some(Sign::Divide),
        b"%" => Some(Sign::Remainder),
        b"&" => Some(Sign::And),
        b"|" => Some(Sign::Or),
        b"^" => Some(Sign::Xor),
        b"<<" => Some(Sign::ShiftLeft),
        b">>" => Some(Sign::ShiftRight),
        b"<" => Some(Sign::Less),
        b"<=" => Some(Sign::LessEqual),
        b">" => Some(Sign::Greater),
        b">=" => Some(Sign::GreaterEqual),
        b"==" => Some(Sign::Equal),
        b"!=" => Some(Sign::NotEqual),
        b"===" => Some(Sign::StreamEqual),
        b"!==" => Some(Sign::StreamNotEqual),
        _ => None,
    }
}
