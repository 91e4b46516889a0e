// Connections: of feeds in a kernel, and of ends in a manager.
ghost use Rattle.std.specs.Prelude.{◌≡◌, OnErr};
ghost use Rattle.kernel_meaning.specs.LibraryRows as Rows;
ghost use Rattle.kernel_rows.specs.Given.{IsDone};

use crate::done::Done;
use crate::links::ends_joined;
use crate::streams::is_same;
use fix_arith::TypeError;
use kernel_calls::Call;
use kernel_meaning::{EvalError, Side, State, Value};
use std::alloc::Global;

/// `left <== right`: a feed and a stream of one type, or two ends on their sides.
///
/// Its errors are `NoMemory`, `WrongKind` and `TypesDiffer`.
pub fn connect(
    alloc: Global,
    at: u32,
    values: &[Value],
    state: &mut State,
) -> Result<Done, EvalError>
    ensures done { IsDone state.new (Rows.connect at values.now state.old) result }
    ensures err { OnErr result (state.new ≡ state.old) }
{
    match values {
        [
            Value::Stream {
                node: feed,
                of,
                feed: true,
            },
            Value::Stream {
                node,
                of: other,
                ..
            },
        ] => {
            if !is_same(*of, *other) {
                return Err(EvalError::Typing(at, TypeError::TypesDiffer));
            }
            Ok(Done::call(alloc, Call::Connect(*feed, *node), Value::Nothing)?)
        }
        [
            Value::Link {
                end: left,
                side: Side::Left,
            },
            Value::Link {
                end: right,
                side: Side::Right,
            },
        ] => {
            let value = ends_joined(alloc, left, right, state)?;
            Ok(Done::value(alloc, value))
        }
        _ => Err(EvalError::WrongKind(at)),
    }
}
