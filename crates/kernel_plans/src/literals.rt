// The values of literals.
ghost use Rattle.std.specs.Prelude.{◌≡◌, ◌≤◌, ◌<◌, ◌^◌, length, position};
ghost use Rattle.std.specs.List.{list_any, before_first, after_first};
ghost use Rattle.grammar.specs.Bytes as numerals;
ghost use Rattle.maxj_tokens.specs.Tokens.{is_suffix, is_dot};
ghost use Rattle.maxj_tokens.specs.Faults as faults;
ghost use Rattle.kernel_meaning.specs.Values as Values;
ghost use Rattle.kernel_rows.specs.Fit.{IsFit};

use kernel_meaning::Value;
use maxj_tokens::{digit_value, hex_digits, without_suffix};

// The base of decimal digits, and that of hexadecimal ones.
const TEN: u128 = 10;

const SIXTEEN: u128 = 16;

/// The value of an integer: one of 32 bits, or a wide literal, with a suffix or above 2^31 - 1.
pub fn whole_of(word: &[u8]) -> Value
    requires within { faults.integer_value word.now < 2 ^ 128 }
    ensures { result ≡ Values.whole_of word.now }
{
    let digits = integer_value(word);
    if !has_suffix(word) && digits < 1 << 31 {
        Value::Int(digits as i32)
    } else {
        Value::Literal {
            negative: false,
            digits,
            tens: 0,
        }
    }
}

/// The value of a decimal: its digits as one number, and how many of them stand behind the point.
pub fn decimal_of(word: &[u8]) -> Value
    requires within { length word.now ≤ 31 }
    ensures value { result ≡ Values.decimal_of word.now }
    ensures fit { IsFit result }
{
    let parts = around_point(word);
    let whole = digits_value(TEN, 0, parts.whole);
    let digits = digits_value(TEN, whole, parts.behind);
    Value::Literal {
        negative: false,
        digits,
        tens: parts.behind.len() as u8,
    }
}

/// What stands between the quotes of a string.
pub fn quoted(word: &[u8]) -> &[u8]
    ensures { result.now ≡ Values.quoted word.now }
{
    match word {
        [_, text @ .., _] => text,
        _ => &[],
    }
}

// The digits of a decimal before its point, and those behind it.
#[derive(Clone, Copy)]
struct Decimal<'a> {
    whole: &'a [u8],
    behind: &'a [u8],
}

fn around_point(word: &[u8]) -> Decimal<'_>
    ensures whole { result.whole.now ≡ before_first is_dot word.now }
    ensures behind { result.behind.now ≡ after_first is_dot word.now }
{
    match point_place(word) {
        Some(place) => Decimal {
            whole: &word[..place],
            behind: &word[place + 1..],
        },
        None => Decimal {
            whole: word,
            behind: &[],
        },
    }
}

fn point_place(word: &[u8]) -> Option<usize>
    ensures { result ≡ position is_dot word.now }
{
    word.iter().position(|byte| *byte == b'.')
}

// Whether an `L` stands in the integer.
fn has_suffix(word: &[u8]) -> bool
    ensures { result ≡ list_any is_suffix word.now }
{
    word.iter().any(|byte| *byte == b'L' || *byte == b'l')
}

// The number that an integer says.
fn integer_value(word: &[u8]) -> u128
    requires { faults.integer_value word.now < 2 ^ 128 }
    ensures { result ≡ faults.integer_value word.now }
{
    let integer = without_suffix(word);
    match hex_digits(integer) {
        Some(digits) => digits_value(SIXTEEN, 0, digits),
        None => digits_value(TEN, 0, integer),
    }
}

// The number that digits say, behind those that say `before`.
fn digits_value(base: u128, before: u128, digits: &[u8]) -> u128
    requires base { 1 ≤ base }
    requires within { numerals.digits_value base before digits.now < 2 ^ 128 }
    ensures { result ≡ numerals.digits_value base before digits.now }
{
    let mut value = before;
    for digit in digits {
        value = value * base + u128::from(digit_value(*digit));
    }
    value
}
