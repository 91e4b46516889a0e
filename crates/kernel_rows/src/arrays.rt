// Elements and lengths of arrays.
ghost use Rattle.std.specs.Prelude.{◌≡◌, ◌<◌, ◌≤◌, ℕ, length};
ghost use Rattle.kernel_meaning.specs.Arrays.{array_of};
ghost use Rattle.kernel_meaning.specs.ArrayRows as Rows;
ghost use Rattle.kernel_rows.specs.Given.{IsGiven};

use crate::copying::copy_value;
use kernel_meaning::{EvalError, State, Value};
use std::alloc::Global;

/// `a.length`: how many elements an array has.
///
/// Its error is `WrongKind`. No array has more than 65,536 elements.
pub fn array_length(at: u32, values: &[Value], state: &State) -> Result<Value, EvalError>
    requires { (n : ℕ) → length (array_of state.now.arrays n) ≤ 65536 }
    ensures { IsGiven state.now (Rows.long at values.now state.now) result }
{
    let [Value::Array { number, .. }] = values else {
        return Err(EvalError::WrongKind(at));
    };
    let length = match state.arrays.get(*number as usize) {
        Some(elements) => elements.len(),
        None => 0,
    };
    Ok(Value::Int(length as i32))
}

/// `array[index]`: an element of an array, which must be set.
///
/// Its errors are `NoMemory`, `WrongKind`, `ArrayRange` and `Unset`.
pub fn element(alloc: Global, at: u32, values: &[Value], state: &State) -> Result<Value, EvalError>
    ensures { IsGiven state.now (Rows.indexed at values.now state.now) result }
{
    let [Value::Array { number, .. }, Value::Int(place)] = values else {
        return Err(EvalError::WrongKind(at));
    };
    let Ok(place) = usize::try_from(*place) else {
        return Err(EvalError::ArrayRange(at));
    };
    let Some(elements) = state.arrays.get(*number as usize) else {
        return Err(EvalError::ArrayRange(at));
    };
    match elements.get(place) {
        None => Err(EvalError::ArrayRange(at)),
        Some(Value::Nothing) => Err(EvalError::Unset(at)),
        Some(value) => Ok(copy_value(alloc, value)?),
    }
}
