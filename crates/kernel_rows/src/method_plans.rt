// The plans of methods of values, and of the calls of a manager, by their names.
ghost use Rattle.std.specs.Prelude.{◌≡◌, if◌then◌else◌};
ghost use Rattle.kernel_meaning.specs.Plans as Plans;
ghost use Rattle.kernel_rows.specs.Planned.{IsPlan};

use crate::plan::{OperandPlan, reads_if};
use crate::type_plans::type_plan;
use kernel_meaning::{EvalError, Row};

// The names of the methods of types, streams and chains.
const NEW_INSTANCE: &[u8] = b"newInstance";

const CAST: &[u8] = b"cast";

const ADD_COUNTER: &[u8] = b"addCounter";

// The names of the methods of kernels in a manager.
const GET_INPUT: &[u8] = b"getInput";

const GET_OUTPUT: &[u8] = b"getOutput";

// The names of the calls of a manager.
const ADD_KERNEL: &[u8] = b"addKernel";

const STREAM_FROM_CPU: &[u8] = b"addStreamFromCPU";

const STREAM_TO_CPU: &[u8] = b"addStreamToCPU";

/// The plan of a method of a value in a kernel, with so many arguments; `own` says whether the
/// first one is `this`.
///
/// Its error is `UnknownName`, also of a wrong number of arguments.
pub fn stream_method_plan(word: &[u8], at: u32, count: u32, own: bool) -> OperandPlan
    ensures { IsPlan (Plans.stream_method_plan word.now at count own) result }
{
    if word == NEW_INSTANCE {
        if count != 1 {
            OperandPlan::Fault(EvalError::UnknownName(at))
        } else if own {
            OperandPlan::Reads {
                row: Row::NewInstance,
                from: 0,
                count: 1,
            }
        } else {
            OperandPlan::Reads {
                row: Row::WrongArguments,
                from: 0,
                count: 2,
            }
        }
    } else if word == CAST {
        reads_if(count == 1, at, Row::Cast, 0, 2)
    } else if word == ADD_COUNTER {
        reads_if(count == 2, at, Row::AddCounter, 0, 3)
    } else {
        OperandPlan::Fault(EvalError::UnknownName(at))
    }
}

/// The plan of a method of a kernel in a manager, with so many arguments.
///
/// Its error is `UnknownName`, also of a wrong number of arguments.
pub fn block_method_plan(word: &[u8], at: u32, count: u32) -> OperandPlan
    ensures { IsPlan (Plans.block_method_plan word.now at count) result }
{
    if word == GET_INPUT {
        reads_if(count == 1, at, Row::KernelInput, 0, 2)
    } else if word == GET_OUTPUT {
        reads_if(count == 1, at, Row::KernelOutput, 0, 2)
    } else {
        OperandPlan::Fault(EvalError::UnknownName(at))
    }
}

/// The plan of a call of a manager's library, with so many arguments. `sign` is the path that the
/// third argument is, or nothing; `adds` says whether the first one is a new object.
///
/// Its error is `UnknownName`, also of a wrong number of arguments.
pub fn manager_plan(word: &[u8], at: u32, count: u32, sign: &[u8], adds: bool) -> OperandPlan
    ensures { IsPlan (Plans.manager_plan word.now at count sign.now adds) result }
{
    if word == ADD_KERNEL {
        if count != 1 {
            OperandPlan::Fault(EvalError::UnknownName(at))
        } else if adds {
            OperandPlan::AddsKernel
        } else {
            OperandPlan::Reads {
                row: Row::WrongArguments,
                from: 0,
                count: 1,
            }
        }
    } else if word == STREAM_FROM_CPU {
        reads_if(count == 1, at, Row::StreamFromCpu, 0, 1)
    } else if word == STREAM_TO_CPU {
        reads_if(count == 1, at, Row::StreamToCpu, 0, 1)
    } else {
        type_plan(word, at, count, sign)
    }
}
