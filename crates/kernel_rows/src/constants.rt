// Constants.
ghost use Rattle.std.specs.Prelude.{◌≡◌, ◌<◌, ◌+◌, ◌^◌, OnErr, false};
ghost use Rattle.kernel_meaning.specs.LibraryRows as Rows;
ghost use Rattle.kernel_rows.specs.Fit.{AreFit};
ghost use Rattle.kernel_rows.specs.Given.{IsDone};

use crate::done::Done;
use crate::library::stream_made;
use crate::literals::literal_bits;
use crate::rounding::mode;
use fix_arith::{StreamType, TypeError};
use kernel_calls::Call;
use kernel_meaning::{EvalError, State, Value};
use std::alloc::Global;

/// `constant.var(type, number)`.
///
/// Its errors are `NoMemory`, `WrongKind`, and `NotForType` and `LiteralRange` of the number.
pub fn constant_var(
    alloc: Global,
    at: u32,
    values: &[Value],
    state: &mut State,
) -> Result<Done, EvalError>
    requires made { state.old.made + 1 < 2 ^ 32 }
    requires fit { AreFit values.now }
    ensures done { IsDone state.new (Rows.constant at values.now state.old) result }
    ensures err { OnErr result (state.new ≡ state.old) }
{
    match values {
        [Value::Type(of), Value::Int(n)] => {
            let size = u128::from(n.unsigned_abs());
            let bits = literal_bits(mode(state), *n < 0, size, 0, *of);
            constant_by(alloc, at, *of, bits, state)
        }
        [
            Value::Type(of),
            Value::Literal {
                negative,
                digits,
                tens,
            },
        ] => {
            let bits = literal_bits(mode(state), *negative, *digits, *tens, *of);
            constant_by(alloc, at, *of, bits, state)
        }
        _ => Err(EvalError::WrongKind(at)),
    }
}

// The constant of these bits, or why there is none.
fn constant_by(
    alloc: Global,
    at: u32,
    of: StreamType,
    bits: Result<u128, TypeError>,
    state: &mut State,
) -> Result<Done, EvalError>
    requires { state.old.made + 1 < 2 ^ 32 }
    ensures done { IsDone state.new (Rows.constant_by at of bits state.old) result }
    ensures err { OnErr result (state.new ≡ state.old) }
{
    match bits {
        Ok(bits) => stream_made(alloc, Call::Constant(bits, of), of, false, state),
        Err(error) => Err(EvalError::Typing(at, error)),
    }
}
