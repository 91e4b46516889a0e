// A whole source: its bytes are read to a tree, or have a first fault.
ghost use Rattle.std.specs.Prelude.{◌≡◌, ◌<◌, ◌^◌, length, IfOk, IfErr};
ghost use Rattle.maxj_syntax.specs.Ranges.{AreInRange};
ghost use Rattle.maxj_syntax.specs.Outcomes.{IsTheSource, FailsToRead, of_scan, of_parse};

use crate::parser::{ParseError, parse_tokens};
use crate::project::is_no_project;
use crate::tree::Program;
use maxj_tokens::{ScanError, first_excess, first_outside, scan};
use mx_base::NoMemory;
use std::alloc::Global;

/// Why bytes are no source. A place is the number of bytes before it.
#[derive(Clone, Copy, Debug, PartialEq, Eq)]
pub enum SourceError {
    /// No memory was left.
    NoMemory,
    /// A byte stands at this place that stands in no source outside comments.
    StrayByte(u32),
    /// At this place no token begins, a comment or string begins that doesn't end, or a number goes on with a letter, a digit or `_`.
    NoToken(u32),
    /// The token at this place is a word that no source uses, or a number that is too large.
    Outside(u32),
    /// At the token at this place over 200 signs are open, or it is a `;`, `{` or `}` over 2000 tokens behind the one before.
    Excess(u32),
    /// No source has the token at this place after those before it; or the source ends too early, at its size.
    Misplaced(u32),
    /// There is no kernel, or there are two managers, two classes of one name, or several kernels and no manager.
    NoProject,
}

impl From<NoMemory> for SourceError {
    ghost from_gives = { λ _ e. e ≡ NoMemory };

    ghost use Rattle.maxj_syntax.specs.declared.source.SourceError.TheVariants.{NoMemory};

    fn from(_: NoMemory) -> Self {
        SourceError::NoMemory
    }
}

impl From<ScanError> for SourceError {
    ghost from_gives = { λ e r. r ≡ of_scan e };

    fn from(error: ScanError) -> Self {
        match error {
            ScanError::NoMemory => SourceError::NoMemory,
            ScanError::StrayByte(place) => SourceError::StrayByte(place),
            ScanError::NoToken(place) => SourceError::NoToken(place),
        }
    }
}

impl From<ParseError> for SourceError {
    ghost from_gives = { λ e r. r ≡ of_parse e };

    fn from(error: ParseError) -> Self {
        match error {
            ParseError::NoMemory => SourceError::NoMemory,
            ParseError::Misplaced(place) => SourceError::Misplaced(place),
        }
    }
}

/// The classes of the source that the bytes are, and the nodes of their trees, or the first fault.
/// There are fewer than 2^32 bytes. The integers of all nodes are below 2^128, and the decimals have
/// at most 30 digits.
pub fn parse(alloc: Global, bytes: &[u8]) -> Result<Program<'_>, SourceError>
    requires { length bytes.now < 2 ^ 32 }
    ensures ok { IfOk result (λ p. IsTheSource bytes.now p) }
    ensures numbers { IfOk result (λ p. AreInRange p.tree) }
    ensures err { IfErr result (λ e. FailsToRead bytes.now e) }
{
    let tokens = scan(alloc, bytes)?;
    if let Some(place) = first_outside(&tokens) {
        return Err(SourceError::Outside(place));
    }
    if let Some(place) = first_excess(&tokens) {
        return Err(SourceError::Excess(place));
    }
    let program = parse_tokens(alloc, tokens, bytes.len() as u32)?;
    if is_no_project(alloc, &program)? {
        return Err(SourceError::NoProject);
    }
    Ok(program)
}
