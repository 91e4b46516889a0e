// The parts of integers.
ghost use Rattle.std.specs.Prelude.{◌≡◌, drop, position, true, false, IfSome, IfNone};
ghost use Rattle.std.specs.List.{before_first};
ghost use Rattle.grammar.specs.Bytes as numerals;
ghost use Rattle.maxj_tokens.specs.Tokens.{is_suffix, is_hex_integer};

use text_scan::{ByteClass, after, is_digit, split_front};

/// The place of the `L` of an integer.
fn suffix_place(word: &[u8]) -> Option<usize>
    ensures { result ≡ position is_suffix word.now }
{
    word.iter().position(|byte| *byte == b'L' || *byte == b'l')
}

/// The integer without its `L`.
pub fn without_suffix(word: &[u8]) -> &[u8]
    ensures { result.now ≡ before_first is_suffix word.now }
{
    match suffix_place(word) {
        Some(end) => &word[..end],
        None => word,
    }
}

/// The digits behind `0x`, where the integer is hexadecimal.
pub fn hex_digits(integer: &[u8]) -> Option<&[u8]>
    ensures some { IfSome result (λ digits. (is_hex_integer integer.now ≡ true) × (digits.now ≡ drop 2 integer.now)) }
    ensures none { IfNone result (is_hex_integer integer.now ≡ false) }
{
    let digits = after(integer, b"0x")?;
    let split = split_front(digits, ByteClass::Hex);
    if split.front.is_empty() || !split.rest.is_empty() {
        None
    } else {
        Some(digits)
    }
}

/// What a digit stands for, one of `0` to `9`, `A` to `F` and `a` to `f`.
pub fn digit_value(digit: u8) -> u8
    ensures { result ≡ numerals.hex_value digit }
{
    if is_digit(digit) {
        digit - b'0'
    } else if b'A' <= digit && digit <= b'F' {
        digit - (b'A' - 10)
    } else {
        digit.saturating_sub(b'a' - 10)
    }
}
