// Which operands an expression has, and what is done with their values.
ghost use Rattle.std.specs.Prelude.{◌≡◌, if◌then◌else◌};

use kernel_meaning::{EvalError, Row};

/// A refusal before any operand is evaluated; or the row, and the range of the parts that are its
/// operands; or the kernel that a manager adds.
#[derive(Drop)]
pub enum OperandPlan {
    Fault(EvalError),
    Reads { row: Row, from: u32, count: u32 },
    AddsKernel,
}

/// So many operands from a place on, where the number of arguments is right; else `UnknownName`.
pub fn reads_if(right: bool, at: u32, row: Row, from: u32, count: u32) -> OperandPlan
    ensures { result ≡ (if right then OperandPlan.Reads row from count
        else OperandPlan.Fault (EvalError.UnknownName at)) }
{
    if right {
        OperandPlan::Reads { row, from, count }
    } else {
        OperandPlan::Fault(EvalError::UnknownName(at))
    }
}
