// The line that a source says that is none.
ghost use Rattle.std.specs.Prelude.{◌≡◌, ◌∷◌, [], IfOk};
ghost use Rattle.std.specs.Fmt.{decimal};
ghost use Rattle.refusal_line.specs.Lines.{refused};
ghost use Rattle.maxj_syntax.specs.Lines.{IsLineOf, fault_of};

use crate::source::SourceError;
use mx_base::NoMemory;
use refusal_line::{Value, refusal_line};
use std::alloc::Global;

impl SourceError {
    /// The line that is said of the fault: its code and its place. Want of memory says none.
    pub fn line(self, alloc: Global) -> Result<Vec<u8>, NoMemory>
        ensures { IfOk result (λ line. IsLineOf (fault_of self) line.items) }
    {
        match self {
            SourceError::StrayByte(place) => place_line(alloc, "S1", place),
            SourceError::NoToken(place) => place_line(alloc, "S2", place),
            SourceError::Misplaced(place) => place_line(alloc, "S3", place),
            SourceError::Outside(place) => place_line(alloc, "S4", place),
            SourceError::Excess(place) => place_line(alloc, "S5", place),
            SourceError::NoProject => refusal_line(alloc, "S6", &[]),
            SourceError::NoMemory => Err(NoMemory),
        }
    }
}

/// The line of a code and a place.
fn place_line(alloc: Global, code: &str, place: u32) -> Result<Vec<u8>, NoMemory>
    ensures { IfOk result (λ line. line.items ≡ refused code.now (decimal place ∷ [])) }
{
    refusal_line(alloc, code, &[Value::Number(place as u64)])
}
