// All tokens of a source.
ghost use Rattle.std.specs.Prelude.{◌≡◌, ◌<◌, ◌≤◌, ◌^◌, ◌-◌, [], length, IfOk, IfErr};
ghost use Rattle.maxj_tokens.specs.Scanning.{AreTokens, HasFault, is_stray};
ghost use Rattle.maxj_tokens.specs.Reading.{Fails};

use crate::lexeme::{Lexeme, kind_of};
use crate::token::next_token;
use crate::tokens::Tokens;
use mx_base::{List, NoMemory};
use std::alloc::Global;
use text_scan::{is_blank, skip_gap};

/// Why a source has no tokens. A place is the number of bytes before it.
#[derive(Clone, Copy, Debug, PartialEq, Eq)]
pub enum ScanError {
    /// No memory was left.
    NoMemory,
    /// A byte stands at this place that stands in no source outside comments.
    StrayByte(u32),
    /// At this place no token begins, a comment or string begins that doesn't end, or a number goes on with a letter, a digit or `_`.
    NoToken(u32),
}

impl From<NoMemory> for ScanError {
    ghost from_gives = { λ _ e. e ≡ NoMemory };

    ghost use Rattle.maxj_tokens.specs.declared.scanner.ScanError.TheVariants.{NoMemory};

    fn from(_: NoMemory) -> Self {
        ScanError::NoMemory
    }
}

/// Whether the byte stands in no source outside comments.
fn is_stray(byte: u8) -> bool
    ensures { result ≡ is_stray byte }
{
    byte > b'~' || byte < b' ' && !is_blank(byte)
}

/// The first fault of a text, which stands at the begin of what is left of it.
fn fault(text: &[u8], left: &[u8]) -> ScanError
    requires size { length text.now < 2 ^ 32 }
    requires within { length left.now ≤ length text.now }
    requires fault { HasFault text.now (length text.now - length left.now) left.now }
    ensures { Fails text.now result }
{
    let at = (text.len() - left.len()) as u32;
    match left.first() {
        Some(first) if is_stray(*first) => ScanError::StrayByte(at),
        _ => ScanError::NoToken(at),
    }
}

/// How many tokens a text has, up to the first place where none begins.
fn count(text: &[u8]) -> usize
    ensures at_most { result ≤ length text.now }
{
    let mut count = 0usize;
    let mut rest = text;
    while !rest.is_empty() {
        if let Some(behind) = skip_gap(rest) {
            rest = behind;
        } else {
            let Some(found) = next_token(rest) else {
                return count;
            };
            count += 1;
            rest = found.rest;
        }
    }
    count
}

/// An empty list with room for the tokens of a text: one that grows would take twice the memory.
fn room(alloc: Global, text: &[u8]) -> Result<List<Lexeme>, NoMemory>
    ensures { IfOk result (λ lexemes. lexemes ≡ []) }
{
    let lexemes = Vec::with_capacity(alloc, count(text))?;
    Ok(List::from_vec(lexemes))
}

/// The tokens of a source, each with its place. The longest token is taken.
pub fn scan(alloc: Global, text: &[u8]) -> Result<Tokens<'_>, ScanError>
    requires { length text.now < 2 ^ 32 }
    ensures tokens { IfOk result (λ tokens. AreTokens text.now tokens) }
    ensures stuck { IfErr result (λ e. Fails text.now e) }
{
    let mut lexemes = room(alloc, text)?;
    let mut rest = text;
    while !rest.is_empty() {
        if let Some(behind) = skip_gap(rest) {
            rest = behind;
        } else {
            let at = (text.len() - rest.len()) as u32;
            let Some(found) = next_token(rest) else {
                return Err(fault(text, rest));
            };
            if found.is_followed() {
                return Err(fault(text, found.rest));
            }
            lexemes.push(Lexeme {
                kind: kind_of(&found.token),
                at,
                length: (rest.len() - found.rest.len()) as u32,
            })?;
            rest = found.rest;
        }
    }
    Ok(Tokens::new(text, lexemes))
}
