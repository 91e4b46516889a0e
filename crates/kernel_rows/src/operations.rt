// Operations on streams and on numbers, which become constants.
ghost use Rattle.std.specs.Prelude.{◌≡◌, ◌<◌, ◌+◌, ◌^◌, All, OnErr, length};
ghost use Rattle.fix_arith.specs.Types.{HasWidth};
ghost use Rattle.kernel_meaning.specs.StreamRows as Rows;
ghost use Rattle.kernel_meaning.specs.Typing.{typing};
ghost use Rattle.kernel_rows.specs.Fit.{AreFit};
ghost use Rattle.kernel_rows.specs.Given.{IsDone};
ghost use Rattle.kernel_rows.specs.Operation.{HasCount, HasAmount};

use crate::done::Done;
use crate::operands::operands_of;
use crate::rounding::mode;
use fix_arith::{StreamType, TypeError, result_type};
use kernel_calls::Call;
use kernel_meaning::{EvalError, State, Value};
use mx_bits::Op;
use std::alloc::Global;

// The type of an operation on operands of these types, or the first fault.
fn typing(op: Op, types: &[StreamType], amount: i32) -> Result<StreamType, TypeError>
    requires widths { All HasWidth types.now }
    requires count { HasCount op (length types.now) }
    ensures { result ≡ typing op types.now amount }
{
    match result_type(op, types, amount) {
        Ok(of) => Ok(of),
        Err(error) => Err(error),
    }
}

/// What is asked for, besides its operands.
#[derive(Clone, Copy)]
pub struct Asked {
    pub op: Op,
    /// How far a shift goes, and 0 elsewhere.
    pub amount: i32,
    /// The type of the constants that numbers become.
    pub of: StreamType,
}

/// An operation on these values. A number becomes a constant, rounded by the mode. `given` is the
/// type to which a cast goes, and empty elsewhere.
///
/// Its errors are `NoMemory`, `TypesDiffer` of a value that is no stream and no number,
/// `NotForType` and `LiteralRange` of a number, and the first fault of the types.
pub fn operation(
    alloc: Global,
    at: u32,
    asked: Asked,
    given: &[StreamType],
    values: &[Value],
    state: &mut State,
) -> Result<Done, EvalError>
    requires made { state.old.made + length values.now + 1 < 2 ^ 32 }
    requires width { HasWidth asked.of }
    requires given { All HasWidth given.now }
    requires fit { AreFit values.now }
    requires count { HasCount asked.op (length values.now + length given.now) }
    requires amount { HasAmount asked.op asked.amount }
    ensures done { IsDone state.new
        (Rows.operation at asked.op asked.amount asked.of given.now values.now state.old) result }
    ensures err { OnErr result (state.new ≡ state.old) }
{
    let mode = mode(state);
    let operands = operands_of(alloc, at, mode, asked.of, state.made, values)?;
    let mut types = operands.types.into_vec();
    types.extend_from_slice(given)?;
    let of = match typing(asked.op, &types, asked.amount) {
        Ok(of) => of,
        Err(error) => return Err(EvalError::Typing(at, error)),
    };
    let amount = asked.amount.unsigned_abs() as u8;
    let mut calls = operands.calls;
    calls.push(Call::Operation(asked.op, mode, amount, operands.args, of))?;
    let node = operands.made;
    state.made = node + 1;
    Ok(Done {
        calls,
        value: Value::Stream {
            node,
            of,
            feed: false,
        },
    })
}
