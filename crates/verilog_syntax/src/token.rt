// The token at the front of a text.
ghost use Rattle.std.specs.Prelude.{◌≡◌, ◌<◌, ◌++◌, ◌∷◌, [], List, ℕ, true, false, length, IfSome, IfNone, MatchOption};
ghost use Rattle.std.specs.List.{list_all};
ghost use Rattle.grammar.specs.Bytes.{is_hex};
ghost use Rattle.rtl_text.specs.Tokens as tokens;
ghost use Rattle.text_scan.specs.Classes.{BeginsOutside};
ghost use Rattle.text_scan.specs.Gaps.{BeginsNoGap};
ghost use Rattle.verilog_syntax.specs.Scanning.{Takes, BeginsNoToken, token_view, mark_bytes, starts_name, begins_number, begins_double, begins_hex_part};
ghost use Rattle.text_scan.specs.declared.bytes.ByteClass.TheVariants.{Hex};

use crate::mark::{Mark, single};
use rtl_ir::Sign;
use text_scan::{ByteClass, after, begins_name, is_digit, split_front};

/// A token of a text. Numbers stand as they are written, since they may have any number of digits.
#[derive(Clone, Copy)]
pub enum Token<'a> {
    /// A name or a reserved word (IEEE 1364-2005, 3.7).
    Word(&'a [u8]),
    /// Decimal digits.
    Number(&'a [u8]),
    /// A width in decimal digits, `'h`, and a value in hexadecimal digits (IEEE 1364-2005, 3.5.1).
    Literal(&'a [u8]),
    Sign(Mark),
}

/// A token, and the number of bytes of the text before it.
#[derive(Clone, Copy)]
pub struct Placed<'a> {
    pub token: Token<'a>,
    pub at: u32,
}

/// A token at the front of a text, and the rest behind it.
#[derive(Clone, Copy)]
pub struct Found<'a> {
    pub token: Token<'a>,
    pub rest: &'a [u8],
}

fn word(text: &[u8]) -> Found<'_>
    requires gap { BeginsNoGap text.now }
    requires name { starts_name text.now ≡ true }
    ensures { Takes text.now (token_view result.token) result.rest.now }
{
    let split = split_front(text, ByteClass::WordOrDollar);
    Found {
        token: Token::Word(split.front),
        rest: split.rest,
    }
}

/// What follows `'h` and hexadecimal digits, where they stand at the front.
fn after_hex_part(text: &[u8]) -> Option<&[u8]>
    ensures none { IfNone result (begins_hex_part text.now ≡ false) }
    ensures some { IfSome result (λ rest. (ds : List ℕ) × (text.now ≡ 39 ∷ ds ++ rest.now) × (tokens.is_hex_part ds ≡ true) × BeginsOutside Hex rest.now) }
{
    let split = split_front(after(text, b"'h")?, ByteClass::Hex);
    if split.front.is_empty() {
        None
    } else {
        Some(split.rest)
    }
}

fn number(text: &[u8]) -> Found<'_>
    requires gap { BeginsNoGap text.now }
    requires number { begins_number text.now ≡ true }
    ensures { Takes text.now (token_view result.token) result.rest.now }
{
    let digits = split_front(text, ByteClass::Digit);
    match after_hex_part(digits.rest) {
        None => Found {
            token: Token::Number(digits.front),
            rest: digits.rest,
        },
        Some(rest) => Found {
            token: Token::Literal(&text[..text.len() - rest.len()]),
            rest,
        },
    }
}

/// `==` or `<=` at the front.
fn double(text: &[u8]) -> Option<Found<'_>>
    requires { BeginsNoGap text.now }
    ensures some { IfSome result (λ found. Takes text.now (token_view found.token) found.rest.now) }
    ensures none { IfNone result (begins_double text.now ≡ false) }
{
    if let Some(rest) = after(text, b"==") {
        return Some(Found {
            token: Token::Sign(Mark::Operator(Sign::Eq)),
            rest,
        });
    }
    match after(text, b"<=") {
        Some(rest) => Some(Found {
            token: Token::Sign(Mark::LessEqual),
            rest,
        }),
        None => None,
    }
}

/// A sign of one byte at the front.
fn sign(text: &[u8]) -> Option<Found<'_>>
    requires gap { BeginsNoGap text.now }
    requires name { starts_name text.now ≡ false }
    requires number { begins_number text.now ≡ false }
    requires one { begins_double text.now ≡ false }
    ensures some { IfSome result (λ found. Takes text.now (token_view found.token) found.rest.now) }
    ensures none { IfNone result (BeginsNoToken text.now) }
{
    if after(text, b"/*").is_some() {
        return None;
    }
    let Some((byte, rest)) = text.split_first() else {
        return None;
    };
    match single(*byte) {
        Some(mark) => Some(Found {
            token: Token::Sign(mark),
            rest,
        }),
        None => None,
    }
}

/// The token at the front of a text that begins with no gap.
pub fn next_token(text: &[u8]) -> Option<Found<'_>>
    requires { BeginsNoGap text.now }
    ensures some { IfSome result (λ found. Takes text.now (token_view found.token) found.rest.now) }
    ensures shorter { IfSome result (λ found. length found.rest.now < length text.now) }
    ensures none { IfNone result (BeginsNoToken text.now) }
{
    let Some(first) = text.first() else {
        return None;
    };
    if begins_name(*first) {
        return Some(word(text));
    }
    if is_digit(*first) {
        return Some(number(text));
    }
    match double(text) {
        Some(found) => Some(found),
        None => sign(text),
    }
}
