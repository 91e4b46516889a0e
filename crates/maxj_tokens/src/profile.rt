// Tokens out of profile.
ghost use Rattle.std.specs.Prelude.{◌≡◌, ◌≤◌, ◌^◌, ◌↔◌, IsTrue, MatchOption, IfSome, IfNone};
ghost use Rattle.grammar.specs.Bytes as numerals;
ghost use Rattle.maxj_tokens.specs.Faults.{IsFirst, HasNone, IsOutside, IsForeign, integer_value};
ghost use Rattle.maxj_tokens.specs.Reading.{token_view};

use crate::integer::{digit_value, hex_digits, without_suffix};
use crate::token::Token;
use crate::tokens::Tokens;
use crate::word::is_foreign_word;

/// The most digits of a decimal, those before its point and those behind it together.
const MOST_DIGITS: usize = 30;

/// The number that digits say to a base, where it has at most 128 bits.
fn value(base: u128, digits: &[u8]) -> Option<u128>
    requires { 1 ≤ base }
    ensures { let said = numerals.digits_value base 0 digits.now in MatchOption result (2 ^ 128 ≤ said) (λ n. n ≡ said) }
{
    let mut value: u128 = 0;
    for digit in digits {
        value = value
            .checked_mul(base)?
            .checked_add(digit_value(*digit) as u128)?;
    }
    Some(value)
}

/// Whether the integer has more than 128 bits.
fn is_too_large(word: &[u8]) -> bool
    ensures { IsTrue result ↔ (2 ^ 128 ≤ integer_value word.now) }
{
    let integer = without_suffix(word);
    let value = match hex_digits(integer) {
        Some(digits) => value(16, digits),
        None => value(10, integer),
    };
    value.is_none()
}

/// Whether no source has the token.
fn is_foreign(token: &Token<'_>) -> bool
    ensures { IsTrue result ↔ IsForeign (token_view token.now) }
{
    match token {
        Token::Word(word) => is_foreign_word(word),
        Token::Whole(word) => is_too_large(word),
        Token::Decimal(word) => word.len() > MOST_DIGITS + 1,
        _ => false,
    }
}

/// The place of the first token that is out of profile: a word of Java that no source uses, an
/// integer of more than 128 bits, or a decimal of more than 30 digits.
pub fn first_outside(tokens: &Tokens<'_>) -> Option<u32>
    ensures some { IfSome result (IsFirst IsOutside tokens.now) }
    ensures none { IfNone result (HasNone IsOutside tokens.now) }
{
    for number in 0..tokens.len() {
        let placed = tokens.at(number);
        if is_foreign(&placed.token) {
            return Some(placed.at);
        }
    }
    None
}
