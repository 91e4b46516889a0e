// What is done with the values of operands, for each row.
ghost use Rattle.std.specs.Prelude.{◌≡◌, ◌<◌, ◌+◌, ◌^◌, length, OnErr};
ghost use Rattle.kernel_meaning.specs.Rows as Rows;
ghost use Rattle.kernel_rows.specs.Fit.{AreFit};
ghost use Rattle.kernel_rows.specs.Given.{IsDone, done_of};
ghost use Rattle.kernel_rows.specs.Kept.{IsFitRow, IsKept, RowKeeps};

use crate::arrays::{array_length, element};
use crate::between::between_two;
use crate::choosing::choose;
use crate::connecting::connect;
use crate::constants::constant_var;
use crate::counters::{add_counter, simple_counter};
use crate::done::Done;
use crate::library::{make_counter_chain, new_instance, offset, scalar_input, stream_hold};
use crate::links::{kernel_input, kernel_output, stream_from_cpu, stream_to_cpu};
use crate::new_arrays::new_arrays;
use crate::operators::{cast, mux};
use crate::ports::{input, output};
use crate::prefixes::{complemented, minus, negated};
use crate::rounding::{pop_rounding, push_rounding};
use crate::types::{fix_type, int_type, uint_type};
use kernel_meaning::{EvalError, Row, State, Value};
use std::alloc::Global;

// A row makes at most so many nodes beside the constants that its operands become.
const MOST_NODES: u32 = 4;

/// What a row does with the values of its operands, for an expression at a place: the calls that it
/// makes, its value, and what it changes in the state. After an error the state is as before.
///
/// Its errors are those of the row; `OwnMethod` is no row of values, and so `WrongKind`. Where the
/// numbers of nodes or arrays have no 32 bits left, there is no memory.
#[tactic(auto, using(crate::proofs::RowsKept::done_keeps))]
pub fn row_of(
    alloc: Global,
    row: Row,
    at: u32,
    values: &[Value],
    state: &mut State,
) -> Result<Done, EvalError>
    requires row { IsFitRow row }
    requires fit { AreFit values.now }
    requires kept { IsKept state.old }
    ensures done { IsDone state.new (Rows.row_of row at values.now state.old) result }
    ensures keeps { RowKeeps state.old state.new result }
    ensures err { OnErr result (state.new ≡ state.old) }
{
    let left = u32::MAX - state.made;
    if values.len() >= left.saturating_sub(MOST_NODES) as usize {
        return Err(EvalError::NoMemory);
    }
    row_with_room(alloc, row, at, values, state)
}

// The same, where there are numbers for the nodes that the row may make.
#[tactic(auto, using(crate::proofs::ArraysKept::few_elements), unfolding(kernel_meaning::specs::Rows::row_of))]
fn row_with_room(
    alloc: Global,
    row: Row,
    at: u32,
    values: &[Value],
    state: &mut State,
) -> Result<Done, EvalError>
    requires made { state.old.made + length values.now + 4 < 2 ^ 32 }
    requires fit { AreFit values.now }
    requires kept { IsKept state.old }
    ensures done { IsDone state.new (Rows.row_of row at values.now state.old) result }
    ensures err { OnErr result (state.new ≡ state.old) }
{
    match row {
        Row::Gives(value) => Ok(Done::value(alloc, value)),
        Row::OwnMethod(_) | Row::WrongArguments => Err(EvalError::WrongKind(at)),
        Row::Binary(sign) => between_two(alloc, at, sign, values, state),
        Row::Negate => minus(alloc, at, values, state),
        Row::Complement => complemented(alloc, at, values, state),
        Row::Not => done(alloc, negated(at, values)),
        Row::LeastInt => Ok(Done::value(alloc, Value::Int(i32::MIN))),
        Row::Element => done(alloc, element(alloc, at, values, state)),
        Row::Length => done(alloc, array_length(at, values, state)),
        Row::NewArray(of) => done(alloc, new_arrays(alloc, at, of, values, state)),
        Row::UIntType => done(alloc, uint_type(at, values)),
        Row::IntType => done(alloc, int_type(at, values)),
        Row::FixType(signed) => done(alloc, fix_type(at, signed, values)),
        Row::NewInstance => new_instance(alloc, at, values, state),
        Row::Cast => cast(alloc, at, values, state),
        Row::AddCounter => add_counter(alloc, at, values, state),
        Row::Input => input(alloc, at, values, state),
        Row::Output => output(alloc, at, values, state),
        Row::ScalarInput => scalar_input(alloc, at, values, state),
        Row::ConstantVar => constant_var(alloc, at, values, state),
        Row::Offset => offset(alloc, at, values, state),
        Row::Mux => mux(alloc, at, values, state),
        Row::Choose => choose(alloc, at, values, state),
        Row::SimpleCounter => simple_counter(alloc, at, values, state),
        Row::MakeCounterChain => make_counter_chain(alloc, state),
        Row::StreamHold => stream_hold(alloc, at, values, state),
        Row::PushRounding(mode) => done(alloc, push_rounding(mode, state)),
        Row::PopRounding => done(alloc, pop_rounding(at, state)),
        Row::Connect => connect(alloc, at, values, state),
        Row::StreamFromCpu => done(alloc, stream_from_cpu(alloc, at, values, state)),
        Row::StreamToCpu => done(alloc, stream_to_cpu(alloc, at, values, state)),
        Row::KernelInput => done(alloc, kernel_input(alloc, at, values)),
        Row::KernelOutput => done(alloc, kernel_output(alloc, at, values)),
    }
}

// A value that was given makes nothing; an error stays.
fn done(alloc: Global, given: Result<Value, EvalError>) -> Result<Done, EvalError>
    ensures { result ≡ done_of given }
{
    match given {
        Ok(value) => Ok(Done::value(alloc, value)),
        Err(error) => Err(error),
    }
}
