// The plans of the calls that give types of streams, by their names.
ghost use Rattle.std.specs.Prelude.{◌≡◌, if◌then◌else◌};
ghost use Rattle.kernel_meaning.specs.Plans as Plans;
ghost use Rattle.kernel_rows.specs.Planned.{IsPlan};

use crate::plan::{OperandPlan, reads_if};
use fix_arith::StreamType;
use kernel_meaning::{EvalError, Row, Value};

// The names of the calls.
const UINT: &[u8] = b"dfeUInt";

const INT: &[u8] = b"dfeInt";

const BOOL: &[u8] = b"dfeBool";

const FIX: &[u8] = b"dfeFix";

// The paths of signs.
const SIGNED: &[u8] = b"SignMode.TWOSCOMPLEMENT";

const UNSIGNED: &[u8] = b"SignMode.UNSIGNED";

/// The plan of a call that gives a type, with so many arguments. `sign` is the path that the third
/// argument is, or nothing.
///
/// Its error is `UnknownName`, also of a wrong number of arguments.
pub fn type_plan(word: &[u8], at: u32, count: u32, sign: &[u8]) -> OperandPlan
    ensures { IsPlan (Plans.type_plan word.now at count sign.now) result }
{
    if word == UINT {
        reads_if(count == 1, at, Row::UIntType, 0, 1)
    } else if word == INT {
        reads_if(count == 1, at, Row::IntType, 0, 1)
    } else if word == BOOL {
        reads_if(
            count == 0,
            at,
            Row::Gives(Value::Type(StreamType::Bool)),
            0,
            0,
        )
    } else if word == FIX {
        if count == 3 {
            fix_plan(sign)
        } else {
            OperandPlan::Fault(EvalError::UnknownName(at))
        }
    } else {
        OperandPlan::Fault(EvalError::UnknownName(at))
    }
}

// The plan of a type of `Fix`, by the path of its sign.
fn fix_plan(sign: &[u8]) -> OperandPlan
    ensures { IsPlan (Plans.fix_plan sign.now) result }
{
    if sign == SIGNED {
        OperandPlan::Reads {
            row: Row::FixType(true),
            from: 0,
            count: 2,
        }
    } else if sign == UNSIGNED {
        OperandPlan::Reads {
            row: Row::FixType(false),
            from: 0,
            count: 2,
        }
    } else {
        OperandPlan::Reads {
            row: Row::WrongArguments,
            from: 0,
            count: 3,
        }
    }
}
