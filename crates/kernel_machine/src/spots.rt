// What can be set: what stands there, its type, and how it changes.
ghost use Rattle.std.specs.Prelude.{◌≡◌, IfOk, length, slice_get, slice_set};
ghost use Rattle.std.specs.Option.{option_copied};
ghost use Rattle.kernel_rows.specs.Fit.{IsFit};
ghost use Rattle.kernel_rows.specs.Kept.{IsKept};
ghost use Rattle.kernel_meaning.specs.Arrays.{value_of, content, array_of, with_content, with_element};
ghost use Rattle.kernel_meaning.specs.Ways.{type_at};
ghost use Rattle.kernel_machine.specs.Answers.{IsSet, IsSpot, IsSpotOf};

use crate::parts::present;
use kernel_meaning::{Binding, Declared, EvalError, Spot, State, Value};
use kernel_plans::variable;
use kernel_rows::copy_value;
use mx_base::{List, NoMemory, Text};
use std::alloc::Global;
use std::mem;

/// A copy of what stands at a spot.
pub(crate) fn content(alloc: Global, state: &State, spot: &Spot) -> Result<Value, NoMemory>
    requires { IsKept state.now }
    ensures is { IfOk result (λ value. value ≡ content spot.now state.now) }
    ensures fit { IfOk result IsFit }
{
    match spot {
        Spot::Variable(name) => copy_bound(alloc, variable(name.as_bytes(), state)),
        Spot::Field(place) => copy_bound(alloc, state.fields.at(*place)),
        Spot::Element { array, place, .. } => {
            match element_of(&state.arrays, *array as usize, *place as usize) {
                Some(value) => copy_value(alloc, value),
                None => Ok(Value::Nothing),
            }
        }
    }
}

// A copy of the value of a binding, if there is one.
fn copy_bound(alloc: Global, binding: Option<&Binding>) -> Result<Value, NoMemory>
    ensures { IfOk result (λ value. value ≡ value_of (option_copied binding.entry)) }
{
    match binding {
        Some(binding) => copy_value(alloc, &binding.value),
        None => Ok(Value::Nothing),
    }
}

/// A copy of what stands at a spot, which must be set.
pub(crate) fn content_set(
    alloc: Global,
    state: &State,
    at: u32,
    spot: &Spot,
) -> Result<Value, EvalError>
    requires { IsKept state.now }
    ensures is { IsSet at (content spot.now state.now) result }
    ensures fit { IfOk result IsFit }
{
    let value = content(alloc, state, spot)?;
    present(at, value)
}

// The element of an array at a place, where there is one.
fn element_of(arrays: &List<List<Value>>, array: usize, place: usize) -> Option<&Value>
    ensures { option_copied result ≡ slice_get (array_of arrays.now array) place }
{
    arrays.get(array)?.get(place)
}

/// The type of what stands at a spot.
pub(crate) fn type_of(state: &State, spot: &Spot) -> Option<Declared>
    ensures { result ≡ type_at spot.now state.now }
{
    match spot {
        Spot::Variable(name) => Some(variable(name.as_bytes(), state)?.of),
        Spot::Field(place) => Some(state.fields.at(*place)?.of),
        Spot::Element { of, .. } => Some(*of),
    }
}

/// The spot of an element of an array.
///
/// Its errors are `ArrayRange` and `WrongKind`.
pub(crate) fn spot_in(
    at: u32,
    array: &Value,
    index: &Value,
    state: &State,
) -> Result<Spot, EvalError>
    ensures { IsSpot at array.now index.now state.now result }
{
    match (array, index) {
        (Value::Array { number, of }, Value::Int(place)) => {
            let Ok(place) = u32::try_from(*place) else {
                return Err(EvalError::ArrayRange(at));
            };
            if place as usize >= size_of_array(state, *number) {
                return Err(EvalError::ArrayRange(at));
            }
            Ok(Spot::Element {
                array: *number,
                place,
                of: *of,
            })
        }
        _ => Err(EvalError::WrongKind(at)),
    }
}

/// The spot of an element of an array, by an index that must be set.
///
/// Its errors are `Unset`, `ArrayRange` and `WrongKind`.
pub(crate) fn index_spot(
    at: u32,
    array: &Value,
    index: Value,
    state: &State,
) -> Result<Spot, EvalError>
    ensures { IsSpotOf at array.now index state.now result }
{
    match index {
        Value::Nothing => Err(EvalError::Unset(at)),
        index => spot_in(at, array, &index, state),
    }
}

// How many elements an array has.
fn size_of_array(state: &State, array: u32) -> usize
    ensures { result ≡ length (array_of state.now.arrays array) }
{
    match state.arrays.get(array as usize) {
        Some(values) => values.len(),
        None => 0,
    }
}

/// Gives what stands at a spot another value.
pub(crate) fn store(alloc: Global, state: &mut State, spot: Spot, value: Value)
    requires kept { IsKept state.old }
    requires value { IsFit value }
    ensures is { state.new ≡ with_content spot value state.old }
    ensures kept { IsKept state.new }
{
    match spot {
        Spot::Variable(name) => match state.variables.place(name.as_bytes()) {
            Some(place) => state.variables.set(place, value),
            None => {
                if let Some(place) = state.fields.place(name.as_bytes()) {
                    state.fields.set(place, value);
                }
            }
        },
        Spot::Field(place) => {
            if place < state.fields.len() {
                state.fields.set(place, value);
            }
        }
        Spot::Element { array, place, .. } => {
            store_element(
                alloc,
                &mut state.arrays,
                array as usize,
                place as usize,
                value,
            );
        }
    }
}

// An element of an array gets another value.
fn store_element(
    alloc: Global,
    arrays: &mut List<List<Value>>,
    array: usize,
    place: usize,
    value: Value,
)
    ensures { arrays.new ≡ with_element arrays.old array place value }
{
    let all = mem::replace(arrays, List::new(alloc));
    *arrays = with_item(alloc, all, array, place, value);
}

// Arrays of which one has another value at a place.
fn with_item(
    alloc: Global,
    arrays: List<List<Value>>,
    array: usize,
    place: usize,
    value: Value,
) -> List<List<Value>>
    ensures { result ≡ with_element arrays array place value }
{
    let mut all = arrays.into_vec();
    if array < all.len() {
        let values = mem::replace(&mut all[array], List::new(alloc));
        all[array] = with_value(values, place, value);
    }
    List::from_vec(all)
}

// An array with another value at a place.
fn with_value(values: List<Value>, place: usize, value: Value) -> List<Value>
    ensures { result ≡ slice_set values place value }
{
    let mut items = values.into_vec();
    if place < items.len() {
        items[place] = value;
    }
    List::from_vec(items)
}
