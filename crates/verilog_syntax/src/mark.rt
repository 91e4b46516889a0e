// The signs of a text.
ghost use Rattle.std.specs.Prelude.{◌≡◌, ◌∷◌, [], false, MatchOption, List, ℕ};
ghost use Rattle.rtl_text.specs.Tokens.{is_sign};
ghost use Rattle.verilog_syntax.specs.Scanning.{mark_bytes};

use rtl_ir::Sign;

/// A sign of the Verilog subset.
#[derive(Clone, Copy, PartialEq, Eq)]
pub enum Mark {
    /// `(`
    Open,
    /// `)`
    Close,
    OpenBracket,
    CloseBracket,
    OpenBrace,
    CloseBrace,
    Semicolon,
    Colon,
    Comma,
    Dot,
    At,
    Question,
    /// `=`
    Assign,
    /// `<=`, which assigns to registers and memories
    LessEqual,
    Tilde,
    /// An operator of two operands
    Operator(Sign),
}

/// The sign that one byte is.
pub fn single(byte: u8) -> Option<Mark>
    ensures { MatchOption result (is_sign (byte ∷ []) ≡ false) (λ m. mark_bytes m ≡ byte ∷ []) }
{
    Some(match byte {
        b'(' => Mark::Open,
        b')' => Mark::Close,
        b'[' => Mark::OpenBracket,
        b']' => Mark::CloseBracket,
        b'{' => Mark::OpenBrace,
        b'}' => Mark::CloseBrace,
        b';' => Mark::Semicolon,
        b':' => Mark::Colon,
        b',' => Mark::Comma,
        b'.' => Mark::Dot,
        b'@' => Mark::At,
        b'?' => Mark::Question,
        b'=' => Mark::Assign,
        b'~' => Mark::Tilde,
        b'+' => Mark::Operator(Sign::Add),
        b'-' => Mark::Operator(Sign::Sub),
        b'*' => Mark::Operator(Sign::Mul),
        b'/' => Mark::Operator(Sign::Div),
        b'&' => Mark::Operator(Sign::And),
        b'|' => Mark::Operator(Sign::Or),
        b'^' => Mark::Operator(Sign::Xor),
        b'<' => Mark::Operator(Sign::Lt),
        _ => return None,
    })
}

impl Mark {
    pub fn bytes(self) -> &'static [u8]
        ensures { result.now ≡ mark_bytes self }
    {
        match self {
            Mark::Open => b"(",
            Mark::Close => b")",
            Mark::OpenBracket => b"[",
            Mark::CloseBracket => b"]",
            Mark::OpenBrace => b"{",
            Mark::CloseBrace => b"}",
            Mark::Semicolon => b";",
            Mark::Colon => b":",
            Mark::Comma => b",",
            Mark::Dot => b".",
            Mark::At => b"@",
            Mark::Question => b"?",
            Mark::Assign => b"=",
            Mark::LessEqual => b"<=",
            Mark::Tilde => b"~",
            Mark::Operator(sign) => sign.spelling(),
        }
    }
}
