// All tokens of a text.
ghost use Rattle.std.specs.Prelude.{◌≡◌, ◌<◌, ◌^◌, [], length, map, IfOk, IfErr, MatchResult};
ghost use Rattle.rtl_text.specs.Tokens as tokens;
ghost use Rattle.verilog_syntax.specs.Scanning.{ReadsAt, HasNoToken, placed_view, Fails};

use crate::token::{Placed, next_token};
use mx_base::{List, NoMemory};
use std::alloc::Global;
use text_scan::skip_gap;

/// Why a text has no tokens.
#[derive(Clone, Copy, Debug, PartialEq, Eq)]
pub enum ScanError {
    /// No memory was left.
    NoMemory,
    /// At this place, the number of bytes before it, no token begins, and neither white space nor a comment.
    NoToken(u32),
}

impl From<NoMemory> for ScanError {
    ghost from_gives = { λ _ e. e ≡ NoMemory };

    ghost use Rattle.verilog_syntax.specs.declared.scanner.ScanError.TheVariants.{NoMemory};

    fn from(_: NoMemory) -> Self {
        ScanError::NoMemory
    }
}

/// How many tokens a text has, up to the first place where none begins.
fn count(text: &[u8]) -> usize {
    let mut count = 0usize;
    let mut rest = text;
    while !rest.is_empty() {
        if let Some(behind) = skip_gap(rest) {
            rest = behind;
        } else {
            let Some(found) = next_token(rest) else {
                return count;
            };
            count = count.saturating_add(1);
            rest = found.rest;
        }
    }
    count
}

/// An empty list with room for the tokens of a text: one that grows would take twice the memory.
fn room<'a>(alloc: Global, text: &'a [u8]) -> Result<List<Placed<'a>>, NoMemory>
    ensures { IfOk result (λ tokens. tokens ≡ []) }
{
    let tokens = Vec::with_capacity(alloc, count(text))?;
    Ok(List::from_vec(tokens))
}

/// The tokens of a text, each with its place. The longest token is taken.
pub fn scan(alloc: Global, text: &[u8]) -> Result<List<Placed<'_>>, ScanError>
    requires { length text.now < 2 ^ 32 }
    ensures tokens { IfOk result (λ tokens. ReadsAt 0 text.now (map placed_view tokens) []) }
    ensures stuck { IfErr result (λ e. Fails text.now e) }
{
    let mut tokens = room(alloc, text)?;
    let mut rest = text;
    while !rest.is_empty() {
        if let Some(behind) = skip_gap(rest) {
            rest = behind;
        } else {
            let at = (text.len() - rest.len()) as u32;
            let Some(found) = next_token(rest) else {
                return Err(ScanError::NoToken(at));
            };
            tokens.push(Placed {
                token: found.token,
                at,
            })?;
            rest = found.rest;
        }
    }
    Ok(tokens)
}
