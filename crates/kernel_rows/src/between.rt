// A sign between two values.
ghost use Rattle.std.specs.Prelude.{◌≡◌, ◌<◌, ◌+◌, ◌^◌, IfOk, IfErr, OnErr};
ghost use Rattle.std.specs.Fmt.{signed_decimal};
ghost use Rattle.kernel_meaning.specs.SignRows as Rows;
ghost use Rattle.kernel_meaning.specs.declared.state.State.{State as States};
ghost use Rattle.kernel_rows.specs.Fit.{AreFit};
ghost use Rattle.kernel_rows.specs.Given.{IsDone, IsGiven};
ghost use Rattle.kernel_rows.specs.Operation.{host_values};

use crate::done::Done;
use crate::host::{booleans, joined, numbers};
use crate::operators::{first_stream, stream_between};
use kernel_meaning::{EvalError, Sign, State, Value};
use mx_base::Text;
use std::alloc::Global;

/// A sign between two values: streams, numbers, booleans, or strings and numbers that are joined.
///
/// Its errors are `NoMemory`, `WrongKind`, `DivByZero`, `TextTooLong`, and those of the types.
pub fn between_two(
    alloc: Global,
    at: u32,
    sign: Sign,
    values: &[Value],
    state: &mut State,
) -> Result<Done, EvalError>
    requires made { state.old.made + 3 < 2 ^ 32 }
    requires fit { AreFit values.now }
    ensures done { IsDone state.new (Rows.between_two sign at values.now state.old) result }
    ensures err { OnErr result (state.new ≡ state.old) }
{
    if first_stream(values).is_some() {
        return stream_between(alloc, at, sign, values, state);
    }
    let [first, second] = values else {
        return Err(EvalError::WrongKind(at));
    };
    let value = host_between(alloc, at, sign, first, second)?;
    Ok(Done::value(alloc, value))
}

// A sign between numbers, booleans and strings.
fn host_between(
    alloc: Global,
    at: u32,
    sign: Sign,
    first: &Value,
    second: &Value,
) -> Result<Value, EvalError>
    ensures { (s : States) → IsGiven s (host_values sign at first.now second.now s) result }
{
    match (first, second) {
        (Value::Int(x), Value::Int(y)) => numbers(sign, at, *x, *y),
        (Value::Flag(a), Value::Flag(b)) => booleans(sign, at, *a, *b),
        (Value::Str(a), Value::Str(b)) => joined(alloc, sign, at, a.as_bytes(), b.as_bytes()),
        (Value::Str(a), Value::Int(y)) => {
            let number = decimal(alloc, *y)?;
            joined(alloc, sign, at, a.as_bytes(), number.as_bytes())
        }
        (Value::Int(x), Value::Str(b)) => {
            let number = decimal(alloc, *x)?;
            joined(alloc, sign, at, number.as_bytes(), b.as_bytes())
        }
        _ => Err(EvalError::WrongKind(at)),
    }
}

// A number in decimal digits, with a sign where it is below 0.
fn decimal(alloc: Global, number: i32) -> Result<Text, EvalError>
    ensures ok { IfOk result (λ text. text ≡ signed_decimal number) }
    ensures err { IfErr result (λ e. e ≡ EvalError.NoMemory) }
{
    let digits = format!(in alloc; "{number}")?;
    Ok(Text::from_vec(digits.into_bytes()))
}
