// The plans of calls: by a name alone, or behind a dot.
ghost use Rattle.std.specs.Prelude.{◌≡◌, ◌++◌, codes, length, List, ℕ, Some, IfOk};
ghost use Rattle.kernel_meaning.specs.Constructors.{is_manager};
ghost use Rattle.kernel_meaning.specs.Names as Names;
ghost use Rattle.kernel_meaning.specs.Plans as Plans;
ghost use Rattle.kernel_meaning.specs.declared.state.State.{State as States};
ghost use Rattle.kernel_rows.specs.Planned.{IsPlan};
ghost use Rattle.kernel_plans.specs.Trees.{tree_of, trees_of};

use crate::branch::{Branch, branch_at};
use crate::paths::{is_path, is_root, is_this, root, text_of, written_path};
use kernel_meaning::{EvalError, Row, State};
use kernel_rows::{
    OperandPlan, block_method_plan, library_plan, manager_plan, stream_method_plan, type_plan,
};
use maxj_syntax::{NodeId, NodeKind, SyntaxTree};
use mx_base::{NoMemory, Text};
use std::alloc::Global;

/// The plan of a call by a name alone: of a method of the own class, which has so many parameters
/// where there is one, or of the library.
#[tactic(auto, unfolding(kernel_meaning::specs::Plans::plan_of))]
pub fn call_plan(
    alloc: Global,
    manager: bool,
    params: Option<u32>,
    tree: &SyntaxTree<'_>,
    branch: &Branch<'_>,
    state: &State,
) -> Result<OperandPlan, NoMemory>
    ensures { (scope : Plans.Scope) → is_manager scope.library ≡ manager
        → scope.methods branch.now.word.now ≡ params
        → IfOk result (IsPlan (Plans.plan_of scope state.now
        NodeKind.Call branch.now.word.now branch.now.span.from
        (trees_of tree.now branch.now.id branch.now.children.now))) }
{
    let at = branch.span.from;
    let count = count_of(branch.children)?;
    if let Some(params) = params {
        return own_plan(alloc, branch.word, at, params == count, count);
    }
    let sign = path_at(alloc, tree, branch, 2, state)?;
    if manager {
        let adds = is_new_part(tree, branch);
        Ok(manager_plan(branch.word, at, count, sign.as_bytes(), adds))
    } else {
        Ok(type_plan(branch.word, at, count, sign.as_bytes()))
    }
}

// The plan of a call of a method of the own class.
fn own_plan(
    alloc: Global,
    word: &[u8],
    at: u32,
    right: bool,
    count: u32,
) -> Result<OperandPlan, NoMemory>
    ensures { IfOk result (IsPlan (Plans.takes right at
        (Plans.Reads (Row.OwnMethod word.now) 0 count))) }
{
    if right {
        let name = text_of(alloc, word)?;
        Ok(OperandPlan::Reads {
            row: Row::OwnMethod(name),
            from: 0,
            count,
        })
    } else {
        Ok(OperandPlan::Fault(EvalError::UnknownName(at)))
    }
}

/// The plan of a call behind a dot: of the library by a path, or of a method of a value.
#[tactic(auto, unfolding(kernel_meaning::specs::Plans::plan_of))]
pub fn dotted_plan(
    alloc: Global,
    manager: bool,
    tree: &SyntaxTree<'_>,
    branch: &Branch<'_>,
    state: &State,
) -> Result<OperandPlan, NoMemory>
    ensures { (scope : Plans.Scope) → is_manager scope.library ≡ manager
        → IfOk result (IsPlan (Plans.plan_of scope state.now
        NodeKind.DotCall branch.now.word.now branch.now.span.from
        (trees_of tree.now branch.now.id branch.now.children.now))) }
{
    let at = branch.span.from;
    let [_, arguments @ ..] = branch.children else {
        return Ok(OperandPlan::Fault(EvalError::WrongKind(at)));
    };
    let count = count_of(arguments)?;
    let base = branch.part(0);
    let root = root(tree, base);
    if !is_path(&root, state) {
        Ok(method_plan(manager, tree, branch, count))
    } else if !is_root(root.word) {
        Ok(OperandPlan::Fault(EvalError::UnknownName(root.span.from)))
    } else if manager {
        Ok(OperandPlan::Fault(EvalError::UnknownName(at)))
    } else {
        path_plan(alloc, tree, base, branch, count, state)
    }
}

// The plan of a method of a value, with so many arguments.
fn method_plan(manager: bool, tree: &SyntaxTree<'_>, branch: &Branch<'_>, count: u32) -> OperandPlan
    ensures { (library : Plans.Library) → is_manager library ≡ manager
        → IsPlan (Plans.method_plan library branch.now.word.now branch.now.span.from count
        (trees_of tree.now branch.now.id branch.now.children.now)) result }
{
    let at = branch.span.from;
    if manager {
        block_method_plan(branch.word, at, count)
    } else {
        stream_method_plan(branch.word, at, count, is_this(tree, branch.part(1)))
    }
}

// The plan of a call of a kernel's library by its path, of which `base` stands before the last dot,
// with so many arguments.
fn path_plan(
    alloc: Global,
    tree: &SyntaxTree<'_>,
    base: Option<NodeId>,
    branch: &Branch<'_>,
    count: u32,
    state: &State,
) -> Result<OperandPlan, NoMemory>
    ensures { IfOk result (λ plan. (path : List ℕ)
        → Names.path_of state.now (tree_of tree.now base) ≡ Some path
        → IsPlan (Plans.library_plan (path ++ codes "." ++ branch.now.word.now)
        branch.now.span.from count (Plans.path_at state.now (Plans.part
        (trees_of tree.now branch.now.id branch.now.children.now) 1))) plan) }
{
    let mut path = written_path(alloc, tree, base)?;
    path.append(b".")?;
    path.append(branch.word)?;
    let mode = path_at(alloc, tree, branch, 1, state)?;
    Ok(library_plan(path.as_bytes(), branch.span.from, count, mode.as_bytes()))
}

// The path that the part at a place is, or nothing.
fn path_at(
    alloc: Global,
    tree: &SyntaxTree<'_>,
    branch: &Branch<'_>,
    place: usize,
    state: &State,
) -> Result<Text, NoMemory>
    ensures { IfOk result (λ path. path ≡ Plans.path_at state.now (Plans.part
        (trees_of tree.now branch.now.id branch.now.children.now) place)) }
{
    let part = branch.part(place);
    if is_path(&root(tree, part), state) {
        written_path(alloc, tree, part)
    } else {
        Ok(Text::from_vec(Vec::new(alloc)))
    }
}

// Whether the first part is a new object.
fn is_new_part(tree: &SyntaxTree<'_>, branch: &Branch<'_>) -> bool
    ensures { result ≡ Plans.is_new (Plans.part
        (trees_of tree.now branch.now.id branch.now.children.now) 0) }
{
    match branch_at(tree, branch.part(0)).kind {
        NodeKind::New => true,
        _ => false,
    }
}

/// The number of these parts, which is below 2^32.
pub fn count_of(parts: &[NodeId]) -> Result<u32, NoMemory>
    ensures { IfOk result (λ count. count ≡ length parts.now) }
{
    match u32::try_from(parts.len()) {
        Ok(count) => Ok(count),
        Err(_) => Err(NoMemory),
    }
}
