// New arrays, and the steps that they take.
ghost use Rattle.std.specs.Prelude.{◌≡◌, ◌≤◌, ◌<◌, map, unsigned_abs, IfOk, IfSome, IfNone, OnErr};
ghost use Rattle.std.specs.List.{list_all};
ghost use Rattle.kernel_meaning.specs.Arrays as Arrays;
ghost use Rattle.kernel_meaning.specs.ArrayRows as Rows;
ghost use Rattle.kernel_rows.specs.Filling.{AreNumbers};
ghost use Rattle.kernel_rows.specs.Given.{IsGiven};

use crate::filling::grown;
use kernel_meaning::{Declared, EvalError, State, Value};
use mx_base::{List, NoMemory};
use std::alloc::Global;

// The most elements of an array.
const MOST_ELEMENTS: i32 = 65_536;

/// `new type[size]..[size]`: arrays of arrays with nothing in them. Each element is a step.
///
/// Its errors are `NoMemory`, `WrongKind` of a size that is no number, `ArrayRange` of one below 0
/// or above 65,536, and `StepLimit`.
pub fn new_arrays(
    alloc: Global,
    at: u32,
    of: Declared,
    values: &[Value],
    state: &mut State,
) -> Result<Value, EvalError>
    ensures done { IsGiven state.new
        (Rows.arrays_by at of (Rows.sizes_of values.now) state.old) result }
    ensures err { OnErr result (state.new ≡ state.old) }
{
    let numbers = numbers_of(alloc, at, values)?;
    if !are_sizes(numbers.as_slice()) {
        return Err(EvalError::ArrayRange(at));
    }
    let sizes = unsigned(alloc, numbers.as_slice())?;
    let Some(steps) = steps_within(&sizes, state.left) else {
        return Err(EvalError::StepLimit);
    };
    let value = grown(alloc, of, &sizes, &mut state.arrays)?;
    state.left -= steps;
    Ok(value)
}

// The numbers that these values are.
fn numbers_of(alloc: Global, at: u32, values: &[Value]) -> Result<List<i32>, EvalError>
    ensures { AreNumbers at (Rows.sizes_of values.now) result }
{
    let mut numbers = List::new(alloc);
    for value in values {
        match value {
            Value::Int(n) => numbers.push(*n)?,
            _ => return Err(EvalError::WrongKind(at)),
        }
    }
    Ok(numbers)
}

// Whether all numbers are sizes of arrays.
fn are_sizes(numbers: &[i32]) -> bool
    ensures { result ≡ list_all Rows.is_size numbers.now }
{
    numbers.iter().all(|n| is_size(*n))
}

fn is_size(number: i32) -> bool
    ensures { result ≡ Rows.is_size number }
{
    (0..=MOST_ELEMENTS).contains(&number)
}

// The numbers without their signs.
fn unsigned(alloc: Global, numbers: &[i32]) -> Result<Vec<u32>, NoMemory>
    ensures { IfOk result (λ sizes. sizes.items ≡ map unsigned_abs numbers.now) }
{
    let mut sizes = Vec::new(alloc);
    for number in numbers {
        sizes.push(number.unsigned_abs())?;
    }
    Ok(sizes)
}

// How many elements arrays in arrays of these sizes have, where so many steps are left for them.
fn steps_within(sizes: &[u32], left: u32) -> Option<u32>
    ensures some { IfSome result (λ steps. (steps ≡ Arrays.nested sizes.now) × (steps ≤ left)) }
    ensures none { IfNone result (left < Arrays.nested sizes.now) }
{
    let mut arrays: u64 = 1;
    let mut steps: u64 = 0;
    for size in sizes {
        arrays *= u64::from(*size);
        steps += arrays;
        if steps > u64::from(left) {
            return None;
        }
    }
    Some(steps as u32)
}
