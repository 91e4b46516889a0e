// The token at the front of a text.
ghost use Rattle.std.specs.Prelude.{◌≡◌, ◌<◌, ◌++◌, ◌∷◌, [], List, ℕ, true, false, length, IfSome, IfNone};
ghost use Rattle.maxj_tokens.specs.Tokens.{begins_name_byte, is_followed};
ghost use Rattle.text_scan.specs.Gaps.{BeginsNoGap};
ghost use Rattle.maxj_tokens.specs.Scanning.{BeginsNoToken};
ghost use Rattle.maxj_tokens.specs.Reading.{Takes, LacksSign, token_view, starts_name, starts_number, starts_string};

use crate::number::{before, number};
use crate::sign::{Sign, double, single, triple};
use text_scan::{ByteClass, after, begins_name, is_digit, is_in, split_front};

/// A token of a source. All but signs stand as they are written.
#[derive(Clone, Copy)]
pub enum Token<'a> {
    /// A name, or a word that is no name.
    Word(&'a [u8]),
    /// An integer, with its `L` where it has one.
    Whole(&'a [u8]),
    /// Digits, `.` and digits.
    Decimal(&'a [u8]),
    /// A string, with its quotes.
    Str(&'a [u8]),
    Sign(Sign),
}

/// A token, and the number of bytes of the source before it.
#[derive(Clone, Copy)]
pub struct Placed<'a> {
    pub token: Token<'a>,
    pub at: u32,
}

/// A token at the front of a text, and the rest behind it.
#[derive(Clone, Copy)]
pub struct Found<'a> {
    pub token: Token<'a>,
    pub rest: &'a [u8],
}

/// Whether the text begins with a letter, a digit or `_`.
fn begins_name_byte(text: &[u8]) -> bool
    ensures { result ≡ begins_name_byte text.now }
{
    match text.first() {
        Some(first) => is_in(ByteClass::Word, *first),
        None => false,
    }
}

impl Found<'_> {
    /// Whether the token is a number that a letter, a digit or `_` follows directly.
    pub fn is_followed(&self) -> bool
        ensures { result ≡ is_followed (token_view self.now.token) self.now.rest.now }
    {
        match self.token {
            Token::Whole(_) => begins_name_byte(self.rest),
            Token::Decimal(_) => begins_name_byte(self.rest),
            _ => false,
        }
    }
}

fn word(text: &[u8]) -> Found<'_>
    requires gap { BeginsNoGap text.now }
    requires name { starts_name text.now ≡ true }
    ensures { Takes text.now (token_view result.token) result.rest.now }
{
    let split = split_front(text, ByteClass::Word);
    Found {
        token: Token::Word(split.front),
        rest: split.rest,
    }
}

/// The string at the front of a text that begins with a quote.
fn string(text: &[u8]) -> Option<Found<'_>>
    requires gap { BeginsNoGap text.now }
    requires quote { starts_string text.now ≡ true }
    ensures some { IfSome result (λ found. Takes text.now (token_view found.token) found.rest.now) }
    ensures none { IfNone result (BeginsNoToken text.now) }
{
    let inner = after(text, b"\"")?;
    let rest = after(split_front(inner, ByteClass::Quotable).rest, b"\"")?;
    Some(Found {
        token: Token::Str(before(text, rest)),
        rest,
    })
}

/// A sign of three bytes at the front.
fn three(text: &[u8]) -> Option<Found<'_>>
    requires gap { BeginsNoGap text.now }
    ensures some { IfSome result (λ found. Takes text.now (token_view found.token) found.rest.now) }
    ensures none { IfNone result (LacksSign 3 text.now) }
{
    let (first, behind) = text.split_first()?;
    let rest = after(behind, b"==")?;
    let sign = triple(*first)?;
    Some(Found {
        token: Token::Sign(sign),
        rest,
    })
}

/// A sign of two bytes at the front.
fn two(text: &[u8]) -> Option<Found<'_>>
    requires gap { BeginsNoGap text.now }
    requires longer { LacksSign 3 text.now }
    ensures some { IfSome result (λ found. Takes text.now (token_view found.token) found.rest.now) }
    ensures none { IfNone result (LacksSign 2 text.now) }
{
    let (first, behind) = text.split_first()?;
    let (second, rest) = behind.split_first()?;
    let sign = double(*first, *second)?;
    Some(Found {
        token: Token::Sign(sign),
        rest,
    })
}

/// A sign of one byte at the front.
fn one(text: &[u8]) -> Option<Found<'_>>
    requires gap { BeginsNoGap text.now }
    requires name { starts_name text.now ≡ false }
    requires number { starts_number text.now ≡ false }
    requires quote { starts_string text.now ≡ false }
    requires three { LacksSign 3 text.now }
    requires two { LacksSign 2 text.now }
    ensures some { IfSome result (λ found. Takes text.now (token_view found.token) found.rest.now) }
    ensures none { IfNone result (BeginsNoToken text.now) }
{
    if after(text, b"/*").is_some() {
        return None;
    }
    let (first, rest) = text.split_first()?;
    let sign = single(*first)?;
    Some(Found {
        token: Token::Sign(sign),
        rest,
    })
}

/// The sign at the front.
fn sign(text: &[u8]) -> Option<Found<'_>>
    requires gap { BeginsNoGap text.now }
    requires name { starts_name text.now ≡ false }
    requires number { starts_number text.now ≡ false }
    requires quote { starts_string text.now ≡ false }
    ensures some { IfSome result (λ found. Takes text.now (token_view found.token) found.rest.now) }
    ensures none { IfNone result (BeginsNoToken text.now) }
{
    if let Some(found) = three(text) {
        return Some(found);
    }
    match two(text) {
        Some(found) => Some(found),
        None => one(text),
    }
}

/// The token at the front of a text that begins with no gap.
pub fn next_token(text: &[u8]) -> Option<Found<'_>>
    requires { BeginsNoGap text.now }
    ensures some { IfSome result (λ found. Takes text.now (token_view found.token) found.rest.now) }
    ensures shorter { IfSome result (λ found. length found.rest.now < length text.now) }
    ensures none { IfNone result (BeginsNoToken text.now) }
{
    let first = text.first()?;
    if begins_name(*first) {
        return Some(word(text));
    }
    if is_digit(*first) {
        return Some(number(text));
    }
    if *first == b'"' {
        string(text)
    } else {
        sign(text)
    }
}
