// The plans of the calls of a kernel's library, by their paths.
ghost use Rattle.std.specs.Prelude.{◌≡◌, ◌==◌, ◌||◌, nat_lt, if◌then◌else◌};
ghost use Rattle.kernel_meaning.specs.Plans as Plans;
ghost use Rattle.kernel_rows.specs.Planned.{IsPlan};

use crate::plan::{OperandPlan, reads_if};
use fix_arith::RoundMode;
use kernel_meaning::{EvalError, Row};

// The paths of the calls.
const INPUT: &[u8] = b"io.input";

const OUTPUT: &[u8] = b"io.output";

const SCALAR_INPUT: &[u8] = b"io.scalarInput";

const CONSTANT_VAR: &[u8] = b"constant.var";

const OFFSET: &[u8] = b"stream.offset";

const MUX: &[u8] = b"control.mux";

const SIMPLE_COUNTER: &[u8] = b"control.count.simpleCounter";

const MAKE_COUNTER_CHAIN: &[u8] = b"control.count.makeCounterChain";

const STREAM_HOLD: &[u8] = b"Reductions.streamHold";

const PUSH_ROUNDING: &[u8] = b"optimization.pushRoundingMode";

const POP_ROUNDING: &[u8] = b"optimization.popRoundingMode";

// The paths of the modes of rounding.
const TRUNCATE: &[u8] = b"RoundingMode.TRUNCATE";

const TO_NEAR: &[u8] = b"RoundingMode.TONEAR";

const TO_NEAR_EVEN: &[u8] = b"RoundingMode.TONEAREVEN";

/// The plan of a call by its path, with so many arguments. `mode` is the path that the first
/// argument is, or nothing.
///
/// Its error is `UnknownName`, also of a wrong number of arguments.
pub fn library_plan(path: &[u8], at: u32, count: u32, mode: &[u8]) -> OperandPlan
    ensures { IsPlan (Plans.library_plan path.now at count mode.now) result }
{
    if path == INPUT {
        reads_if(is_either(count, 2, 3), at, Row::Input, 1, count)
    } else if path == OUTPUT {
        reads_if(is_either(count, 3, 4), at, Row::Output, 1, count)
    } else if path == SCALAR_INPUT {
        reads_if(count == 2, at, Row::ScalarInput, 1, 2)
    } else if path == CONSTANT_VAR {
        reads_if(count == 2, at, Row::ConstantVar, 1, 2)
    } else if path == OFFSET {
        reads_if(count == 2, at, Row::Offset, 1, 2)
    } else if path == MUX {
        mux_plan(at, count)
    } else if path == SIMPLE_COUNTER {
        reads_if(is_either(count, 1, 2), at, Row::SimpleCounter, 1, count)
    } else if path == MAKE_COUNTER_CHAIN {
        reads_if(count == 0, at, Row::MakeCounterChain, 1, 0)
    } else if path == STREAM_HOLD {
        reads_if(count == 2, at, Row::StreamHold, 1, 2)
    } else if path == PUSH_ROUNDING {
        if count == 1 {
            push_plan(mode)
        } else {
            OperandPlan::Fault(EvalError::UnknownName(at))
        }
    } else if path == POP_ROUNDING {
        reads_if(count == 0, at, Row::PopRounding, 1, 0)
    } else {
        OperandPlan::Fault(EvalError::UnknownName(at))
    }
}

// Whether the number of arguments is one of two: the last argument may be left out.
fn is_either(count: u32, without: u32, with: u32) -> bool
    ensures { result ≡ (count == without || count == with) }
{
    count == without || count == with
}

// The plan of a multiplexer, which has a selector at least.
fn mux_plan(at: u32, count: u32) -> OperandPlan
    ensures { IsPlan (Plans.takes (nat_lt 0 count) at (Plans.Reads Row.Mux 1 count)) result }
{
    if 0 < count {
        OperandPlan::Reads {
            row: Row::Mux,
            from: 1,
            count,
        }
    } else {
        OperandPlan::Fault(EvalError::UnknownName(at))
    }
}

// The plan of setting a mode, by the path of the mode.
fn push_plan(mode: &[u8]) -> OperandPlan
    ensures { IsPlan (Plans.push_plan mode.now) result }
{
    if mode == TRUNCATE {
        OperandPlan::Reads {
            row: Row::PushRounding(RoundMode::Truncate),
            from: 1,
            count: 0,
        }
    } else if mode == TO_NEAR {
        OperandPlan::Reads {
            row: Row::PushRounding(RoundMode::ToNear),
            from: 1,
            count: 0,
        }
    } else if mode == TO_NEAR_EVEN {
        OperandPlan::Reads {
            row: Row::PushRounding(RoundMode::ToNearEven),
            from: 1,
            count: 0,
        }
    } else {
        OperandPlan::Reads {
            row: Row::WrongArguments,
            from: 1,
            count: 1,
        }
    }
}
