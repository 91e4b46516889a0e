// Integers and decimals at the front of a text.
ghost use Rattle.std.specs.Prelude.{◌≡◌, ◌-◌, ◌++◌, List, ℕ, true, false, length, take, IfSome, IfNone};
ghost use Rattle.std.specs.List.{list_all};
ghost use Rattle.maxj_tokens.specs.Tokens.{is_hex_integer, is_decimal};
ghost use Rattle.text_scan.specs.Classes.{BeginsOutside};
ghost use Rattle.text_scan.specs.Gaps.{BeginsNoGap};
ghost use Rattle.maxj_tokens.specs.Reading.{Takes, TakesPlain, PassesSuffix, LacksDecimal, starts_number, token_view};
ghost use Rattle.text_scan.specs.declared.bytes.ByteClass.TheVariants.{Digit, Hex};

use crate::token::{Found, Token};
use text_scan::{ByteClass, after, split_front};

/// What follows `.` and digits, where they stand behind the digits at the front.
fn after_decimal(text: &[u8]) -> Option<&[u8]>
    ensures some { IfSome result (λ rest. (word : List ℕ) × (text.now ≡ word ++ rest.now) × (is_decimal word ≡ true) × BeginsOutside Digit rest.now) }
    ensures none { IfNone result (LacksDecimal text.now) }
{
    let whole = split_front(text, ByteClass::Digit);
    if whole.front.is_empty() {
        return None;
    }
    let part = split_front(after(whole.rest, b".")?, ByteClass::Digit);
    if part.front.is_empty() {
        None
    } else {
        Some(part.rest)
    }
}

/// What follows `0x` and hexadecimal digits, where they stand at the front.
fn after_hex(text: &[u8]) -> Option<&[u8]>
    ensures some { IfSome result (λ rest. (word : List ℕ) × (text.now ≡ word ++ rest.now) × (is_hex_integer word ≡ true) × BeginsOutside Hex rest.now) }
    ensures none { IfNone result ((word back : List ℕ) → text.now ≡ word ++ back → is_hex_integer word ≡ false) }
{
    let digits = split_front(after(text, b"0x")?, ByteClass::Hex);
    if digits.front.is_empty() {
        None
    } else {
        Some(digits.rest)
    }
}

/// What follows the longest integer at the front, one without `L`.
fn after_plain(text: &[u8]) -> &[u8]
    requires { starts_number text.now ≡ true }
    ensures { TakesPlain text.now result.now }
{
    if let Some(rest) = after_hex(text) {
        return rest;
    }
    match after(text, b"0") {
        Some(rest) => rest,
        None => split_front(text, ByteClass::Digit).rest,
    }
}

/// What follows `L` or `l` at the front, or all where there is none.
fn after_suffix(text: &[u8]) -> &[u8]
    ensures { PassesSuffix text.now result.now }
{
    match text.split_first() {
        Some((first, rest)) if *first == b'L' || *first == b'l' => rest,
        _ => text,
    }
}

/// What stands before the rest.
pub fn before<'a>(text: &'a [u8], rest: &[u8]) -> &'a [u8]
    ensures { result.now ≡ take (length text.now - length rest.now) text.now }
{
    &text[..text.len().saturating_sub(rest.len())]
}

/// The integer or decimal at the front.
pub fn number(text: &[u8]) -> Found<'_>
    requires gap { BeginsNoGap text.now }
    requires number { starts_number text.now ≡ true }
    ensures { Takes text.now (token_view result.token) result.rest.now }
{
    if let Some(rest) = after_decimal(text) {
        return Found {
            token: Token::Decimal(before(text, rest)),
            rest,
        };
    }
    let rest = after_suffix(after_plain(text));
    Found {
        token: Token::Whole(before(text, rest)),
        rest,
    }
}
