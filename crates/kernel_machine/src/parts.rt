// The nodes and parts that the machine takes.
ghost use Rattle.std.specs.Prelude.{◌≡◌, ℕ, Some, IfOk};
ghost use Rattle.kernel_rows.specs.Fit.{IsFit, AreFit};
ghost use Rattle.kernel_meaning.specs.Names as Names;
ghost use Rattle.kernel_meaning.specs.Values as Values;
ghost use Rattle.maxj_syntax.specs.Ranges.{AreInRange, IsInRange};
ghost use Rattle.kernel_plans.specs.Trees.{tree_of, branch_tree};
ghost use Rattle.kernel_machine.specs.Answers.{AreMore, IsPresent, IsTyped};
ghost use Rattle.kernel_machine.specs.Positions.{IsPart};

use crate::task::Part;
use kernel_meaning::{Declared, EvalError, State, Value};
use kernel_plans::{Branch, Class, branch_at, declared_by, has_kind, is_mute, mute_place};
use mx_base::{List, NoMemory, Text};
use std::alloc::Global;

// The node of a part.
pub(crate) fn node_at<'a>(class: &'a Class<'_>, part: Part) -> Branch<'a>
    ensures tree { tree_of class.now.cells part ≡ branch_tree class.now.cells result }
    ensures within { AreInRange class.now.cells → IsInRange result.kind result.word.now }
    ensures number { (n : ℕ) → part ≡ Some n → result.id ≡ n }
{
    branch_at(class.tree(), part)
}

// The part of a node at a place.
pub(crate) fn part(node: &Branch<'_>, place: usize) -> Part
    ensures { IsPart node.now place result }
{
    node.part(place)
}

// Whether a part is `this` or a path, which aren't evaluated.
pub(crate) fn is_mute_part(class: &Class<'_>, state: &State, part: Part) -> bool
    ensures { result ≡ Names.is_mute state.now (tree_of class.now.cells part) }
{
    is_mute(state, class.tree(), part)
}

// Where a part that isn't evaluated is told to have no meaning.
pub(crate) fn mute_place_of(class: &Class<'_>, part: Part) -> u32
    ensures { result ≡ Names.mute_place (tree_of class.now.cells part) }
{
    mute_place(class.tree(), part)
}

// The type that a part says, or the place of what names none.
pub(crate) fn type_at(class: &Class<'_>, part: Part) -> Result<Declared, u32>
    ensures { result ≡ Values.declared_by (tree_of class.now.cells part) }
{
    declared_by(class.tree(), part)
}

// The value that a production uses, which must be set.
pub(crate) fn present(at: u32, value: Value) -> Result<Value, EvalError>
    ensures { IsPresent at value result }
{
    match value {
        Value::Nothing => Err(EvalError::Unset(at)),
        value => Ok(value),
    }
}

// These values with one more behind them, which must be set.
pub(crate) fn with_present(
    mut values: List<Value>,
    at: u32,
    value: Value,
) -> Result<List<Value>, EvalError>
    requires values { AreFit values }
    requires value { IsFit value }
    ensures more { AreMore at value values result }
    ensures fit { IfOk result AreFit }
{
    match present(at, value) {
        Ok(value) => {
            values.push(value)?;
            Ok(values)
        }
        Err(error) => Err(error),
    }
}

// The value that a production uses, which must be set and of a type.
pub(crate) fn of_type(at: u32, of: Declared, value: Value) -> Result<Value, EvalError>
    ensures { IsTyped at of value result }
{
    let value = present(at, value)?;
    if !has_kind(of, &value) {
        return Err(EvalError::WrongKind(at));
    }
    Ok(value)
}

// The name that a word is.
pub(crate) fn name_of(alloc: Global, word: &[u8]) -> Result<Text, NoMemory>
    ensures { IfOk result (λ name. name ≡ word.now) }
{
    Ok(Text::from_vec(word.to_vec(alloc)?))
}
