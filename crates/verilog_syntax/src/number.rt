// What digits say.
ghost use Rattle.std.specs.Prelude.{◌≡◌, ◌<◌, ◌≤◌, ◌-◌, ◌^◌, MatchOption, drop};
ghost use Rattle.grammar.specs.Bytes as numerals;
ghost use Rattle.verilog_syntax.specs.Scanning.{literal_width, literal_value};
ghost use Rattle.verilog_syntax.specs.Trees.{IsLiteral};

use mx_bits::Word;
use text_scan::{ByteClass, is_digit, split_front};

fn hex_value(byte: u8) -> u8
    ensures { result ≡ numerals.hex_value byte }
{
    if is_digit(byte) {
        byte - b'0'
    } else if b'A' <= byte && byte <= b'F' {
        byte - (b'A' - 10)
    } else {
        byte.saturating_sub(b'a' - 10)
    }
}

/// The number that digits say to a base, where it is at most `limit`.
fn number(base: u8, digits: &[u8], limit: u128) -> Option<u128>
    requires { 1 ≤ base }
    ensures { let said = numerals.digits_value base 0 digits.now in MatchOption result (limit < said) (λ n. (n ≡ said) × (n ≤ limit)) }
{
    let mut value: u128 = 0;
    for digit in digits {
        value = value
            .checked_mul(base as u128)?
            .checked_add(hex_value(*digit) as u128)?;
        if value > limit {
            return None;
        }
    }
    Some(value)
}

/// The number that decimal digits say, where it is at most `limit`.
pub fn decimal(digits: &[u8], limit: u32) -> Option<u32>
    ensures { let said = numerals.decimal_value digits.now in MatchOption result (limit < said) (λ n. (n ≡ said) × (n ≤ limit)) }
{
    match number(10, digits, limit as u128) {
        Some(value) => Some(value as u32),
        None => None,
    }
}

/// The greatest number of this many bits.
fn greatest(width: u8) -> u128
    requires some { 1 ≤ width }
    requires at_most { width ≤ 128 }
    ensures { result ≡ 2 ^ width - 1 }
{
    u128::MAX >> (128 - width as u32)
}

/// What follows the quote and the `h` of a literal.
fn behind_quote(part: &[u8]) -> &[u8]
    ensures { result.now ≡ drop 2 part.now }
{
    if part.len() < 2 {
        return &[];
    }
    &part[2..]
}

/// The word that a literal says, where its width is 1 to 128 and its value fits.
pub fn literal(bytes: &[u8]) -> Option<Word>
    ensures { MatchOption result (IsLiteral bytes.now → ⊥) (λ w. IsLiteral bytes.now
        × (w.width ≡ literal_width bytes.now) × (w.bits ≡ literal_value bytes.now)) }
{
    let split = split_front(bytes, ByteClass::NotApostrophe);
    let width = match decimal(split.front, 128) {
        Some(0) => return None,
        Some(width) => width as u8,
        None => return None,
    };
    match number(16, behind_quote(split.rest), greatest(width)) {
        Some(bits) => Some(Word::new(bits, width)),
        None => None,
    }
}
