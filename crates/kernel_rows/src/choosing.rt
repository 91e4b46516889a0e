// A condition that is a stream.
ghost use Rattle.std.specs.Prelude.{◌≡◌, ◌<◌, ◌+◌, ◌^◌, OnErr};
ghost use Rattle.kernel_meaning.specs.StreamRows as Rows;
ghost use Rattle.kernel_rows.specs.Fit.{AreFit};
ghost use Rattle.kernel_rows.specs.Given.{IsDone};

use crate::copying::copy_value;
use crate::done::Done;
use crate::operators::{are_operands, first_stream, mux};
use crate::streams::is_bit;
use fix_arith::TypeError;
use kernel_meaning::{EvalError, State, Value};
use std::alloc::Global;

/// `condition ? first : second`, where the condition is a stream of one bit: a multiplexer whose
/// options are the second value and then the first.
///
/// Its errors are `NoMemory`, `WrongKind`, `TypesDiffer` of the condition, and those of the types.
pub fn choose(
    alloc: Global,
    at: u32,
    values: &[Value],
    state: &mut State,
) -> Result<Done, EvalError>
    requires made { state.old.made + 4 < 2 ^ 32 }
    requires fit { AreFit values.now }
    ensures done { IsDone state.new (Rows.choose at values.now state.old) result }
    ensures err { OnErr result (state.new ≡ state.old) }
{
    let [Value::Stream { node, of, feed }, first, second] = values else {
        return Err(EvalError::WrongKind(at));
    };
    let options = &values[1..];
    if !are_operands(options) || first_stream(options).is_none() {
        return Err(EvalError::WrongKind(at));
    }
    if !is_bit(*of) {
        return Err(EvalError::Typing(at, TypeError::TypesDiffer));
    }
    let condition = Value::Stream {
        node: *node,
        of: *of,
        feed: *feed,
    };
    let second = copy_value(alloc, second)?;
    let first = copy_value(alloc, first)?;
    mux(alloc, at, &[condition, second, first], state)
}
