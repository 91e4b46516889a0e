// The prefixes of numbers, booleans, literals and streams.
ghost use Rattle.std.specs.Prelude.{◌≡◌, ◌<◌, ◌+◌, ◌^◌, OnErr};
ghost use Rattle.kernel_meaning.specs.SignRows as Rows;
ghost use Rattle.kernel_meaning.specs.declared.state.State.{State as States};
ghost use Rattle.kernel_rows.specs.Fit.{AreFit};
ghost use Rattle.kernel_rows.specs.Given.{IsDone, IsGiven};

use crate::done::Done;
use crate::operators::prefixed;
use kernel_meaning::{EvalError, State, Value};
use mx_bits::Op;
use std::alloc::Global;

/// `!` before a boolean.
///
/// Its error is `WrongKind`.
pub fn negated(at: u32, values: &[Value]) -> Result<Value, EvalError>
    ensures { (s : States) → IsGiven s (Rows.negated at values.now s) result }
{
    match values {
        [Value::Flag(flag)] => Ok(Value::Flag(!flag)),
        _ => Err(EvalError::WrongKind(at)),
    }
}

/// `-` before a number, which wraps, before a literal that isn't below 0, or before a stream.
///
/// Its errors are `NoMemory`, `WrongKind`, and those of the types.
pub fn minus(alloc: Global, at: u32, values: &[Value], state: &mut State) -> Result<Done, EvalError>
    requires made { state.old.made + 2 < 2 ^ 32 }
    requires fit { AreFit values.now }
    ensures done { IsDone state.new (Rows.minus at values.now state.old) result }
    ensures err { OnErr result (state.new ≡ state.old) }
{
    match values {
        [Value::Int(n)] => Ok(Done::value(alloc, Value::Int(n.wrapping_neg()))),
        [
            Value::Literal {
                negative: false,
                digits,
                tens,
            },
        ] => {
            let literal = Value::Literal {
                negative: true,
                digits: *digits,
                tens: *tens,
            };
            Ok(Done::value(alloc, literal))
        }
        _ => prefixed(alloc, at, Op::Neg, values, state),
    }
}

/// `~` before a number or a stream.
///
/// Its errors are `NoMemory`, `WrongKind`, and those of the types.
pub fn complemented(
    alloc: Global,
    at: u32,
    values: &[Value],
    state: &mut State,
) -> Result<Done, EvalError>
    requires made { state.old.made + 2 < 2 ^ 32 }
    requires fit { AreFit values.now }
    ensures done { IsDone state.new (Rows.complemented at values.now state.old) result }
    ensures err { OnErr result (state.new ≡ state.old) }
{
    match values {
        [Value::Int(n)] => Ok(Done::value(alloc, Value::Int(!*n))),
        _ => prefixed(alloc, at, Op::Not, values, state),
    }
}
