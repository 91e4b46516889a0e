// The plans of expressions: which operands are evaluated, and what is done with their values.
ghost use Rattle.std.specs.Prelude.{◌≡◌, ◌&&◌, codes, IfOk};
ghost use Rattle.std.specs.Str.{bytes_eq};
ghost use Rattle.kernel_meaning.specs.Constructors.{is_manager};
ghost use Rattle.kernel_meaning.specs.Methods as Methods;
ghost use Rattle.kernel_meaning.specs.Plans as Plans;
ghost use Rattle.kernel_meaning.specs.Signs as Signs;
ghost use Rattle.kernel_meaning.specs.declared.state.State.{State as States};
ghost use Rattle.kernel_rows.specs.Planned.{IsPlan};
ghost use Rattle.kernel_plans.specs.Classes.{members, scope};
ghost use Rattle.kernel_rows.specs.Kept.{AreBoundFit};
ghost use Rattle.kernel_plans.specs.Forms.{IsFitPlan};
ghost use Rattle.maxj_syntax.specs.Ranges.{IsInRange};
ghost use Rattle.kernel_plans.specs.Trees.{trees_of};

use crate::branch::{Branch, branch_at, declared_by};
use crate::calls::{call_plan, count_of, dotted_plan};
use crate::class::Class;
use crate::literals::{decimal_of, quoted, whole_of};
use crate::paths::text_of;
use crate::variables::variable;
use kernel_meaning::{EvalError, Row, State, Value};
use kernel_rows::{OperandPlan, copy_value, reads_if, sign_of};
use maxj_syntax::{NodeKind, SyntaxTree};
use mx_base::NoMemory;
use std::alloc::Global;

/// The most bytes of a string.
const LONGEST_TEXT: usize = 64;

// Words of names, methods and signs.
const TRUE: &[u8] = b"true";

const FALSE: &[u8] = b"false";

const MINUS: &[u8] = b"-";

const TILDE: &[u8] = b"~";

const LENGTH: &[u8] = b"length";

const LEAST_INT: &[u8] = b"2147483648";

/// The plan of an expression that is evaluated.
pub fn plan_of(
    alloc: Global,
    class: &Class<'_>,
    branch: &Branch<'_>,
    state: &State,
) -> Result<OperandPlan, NoMemory>
    requires within { IsInRange branch.now.kind branch.now.word.now }
    requires variables { AreBoundFit state.now.variables }
    requires fields { AreBoundFit state.now.fields }
    ensures plan { IfOk result (IsPlan (Plans.plan_of (scope class.now) state.now
        branch.now.kind branch.now.word.now branch.now.span.from
        (trees_of class.now.cells branch.now.id branch.now.children.now))) }
    ensures fit { IfOk result IsFitPlan }
{
    let params = called_params(class, branch);
    let plan = plan_by_kind(
        alloc,
        class.is_manager(),
        params,
        class.tree(),
        branch,
        state,
    )?;
    Ok(plan)
}

// How many parameters the method of the class has that a call names.
fn called_params(class: &Class<'_>, branch: &Branch<'_>) -> Option<u32>
    ensures { branch.now.kind ≡ NodeKind.Call
        → result ≡ Methods.params_of (members class.now) branch.now.word.now }
{
    match branch.kind {
        NodeKind::Call => class.params(branch.word),
        _ => None,
    }
}

// The plan, by the kind of the node; a call has so many parameters where it is of a method of the
// own class.
#[tactic(auto, unfolding(kernel_meaning::specs::Plans::plan_of))]
fn plan_by_kind(
    alloc: Global,
    manager: bool,
    params: Option<u32>,
    tree: &SyntaxTree<'_>,
    branch: &Branch<'_>,
    state: &State,
) -> Result<OperandPlan, NoMemory>
    requires { IsInRange branch.now.kind branch.now.word.now }
    ensures { (scope : Plans.Scope) → is_manager scope.library ≡ manager
        → (branch.now.kind ≡ NodeKind.Call → scope.methods branch.now.word.now ≡ params)
        → IfOk result (IsPlan (Plans.plan_of scope state.now
        branch.now.kind branch.now.word.now branch.now.span.from
        (trees_of tree.now branch.now.id branch.now.children.now))) }
{
    let at = branch.span.from;
    match branch.kind {
        NodeKind::Whole => Ok(gives(whole_of(branch.word))),
        NodeKind::Decimal => Ok(gives(decimal_of(branch.word))),
        NodeKind::Str => text_plan(alloc, quoted(branch.word), at),
        NodeKind::Name => name_plan(alloc, state, branch.word, at),
        NodeKind::Binary => Ok(binary_plan(branch.word, at)),
        NodeKind::Prefix => Ok(prefix_plan(tree, branch)),
        NodeKind::Dot => Ok(reads_if(branch.word == LENGTH, at, Row::Length, 0, 1)),
        NodeKind::DotCall => dotted_plan(alloc, manager, tree, branch, state),
        NodeKind::Call => call_plan(alloc, manager, params, tree, branch, state),
        NodeKind::Index => Ok(reads(Row::Element, 2)),
        NodeKind::New => Ok(OperandPlan::Fault(EvalError::UnknownName(at))),
        NodeKind::NewArray => array_plan(tree, branch),
        NodeKind::Connect => Ok(reads(Row::Connect, 2)),
        _ => Ok(OperandPlan::Fault(EvalError::WrongKind(at))),
    }
}

// So many operands from the first part on.
fn reads(row: Row, count: u32) -> OperandPlan
    ensures { result ≡ OperandPlan.Reads row 0 count }
{
    OperandPlan::Reads {
        row,
        from: 0,
        count,
    }
}

// The value is known before.
fn gives(value: Value) -> OperandPlan
    ensures { result ≡ OperandPlan.Reads (Row.Gives value) 0 0 }
{
    reads(Row::Gives(value), 0)
}

fn text_plan(alloc: Global, text: &[u8], at: u32) -> Result<OperandPlan, NoMemory>
    ensures { IfOk result (IsPlan (Plans.text_plan text.now at)) }
{
    if text.len() <= LONGEST_TEXT {
        let text = text_of(alloc, text)?;
        Ok(gives(Value::Str(text)))
    } else {
        Ok(OperandPlan::Fault(EvalError::TextTooLong(at)))
    }
}

fn name_plan(alloc: Global, state: &State, word: &[u8], at: u32) -> Result<OperandPlan, NoMemory>
    ensures { IfOk result (IsPlan (Plans.name_plan state.now word.now at)) }
{
    if word == TRUE {
        return Ok(gives(Value::Flag(true)));
    }
    if word == FALSE {
        return Ok(gives(Value::Flag(false)));
    }
    match variable(word, state) {
        Some(binding) => value_plan(alloc, at, &binding.value),
        None => Ok(OperandPlan::Fault(EvalError::UnknownName(at))),
    }
}

// The plan of a variable that has this value.
fn value_plan(alloc: Global, at: u32, value: &Value) -> Result<OperandPlan, NoMemory>
    ensures { IfOk result (IsPlan (Plans.value_plan at value.now)) }
{
    match value {
        Value::Nothing => Ok(OperandPlan::Fault(EvalError::Unset(at))),
        _ => Ok(gives(copy_value(alloc, value)?)),
    }
}

fn binary_plan(sign: &[u8], at: u32) -> OperandPlan
    ensures { IsPlan (Plans.binary_plan at (Signs.sign_of sign.now)) result }
{
    match sign_of(sign) {
        Some(sign) => reads(Row::Binary(sign), 2),
        None => OperandPlan::Fault(EvalError::WrongKind(at)),
    }
}

fn prefix_plan(tree: &SyntaxTree<'_>, branch: &Branch<'_>) -> OperandPlan
    ensures { IsPlan (Plans.prefix_plan branch.now.word.now
        (trees_of tree.now branch.now.id branch.now.children.now)) result }
{
    if is_least(tree, branch) {
        reads(Row::LeastInt, 1)
    } else if branch.word == MINUS {
        reads(Row::Negate, 1)
    } else if branch.word == TILDE {
        reads(Row::Complement, 1)
    } else {
        reads(Row::Not, 1)
    }
}

// Whether the node is `-2147483648`.
fn is_least(tree: &SyntaxTree<'_>, branch: &Branch<'_>) -> bool
    ensures { result ≡ Plans.is_least branch.now.word.now
        (trees_of tree.now branch.now.id branch.now.children.now) }
{
    if branch.children.len() != 1 {
        return false;
    }
    let operand = branch_at(tree, branch.part(0));
    match operand.kind {
        NodeKind::Whole => are_least(branch.word, operand.word),
        _ => false,
    }
}

// Whether these are the sign and the digits of `-2147483648`.
fn are_least(sign: &[u8], digits: &[u8]) -> bool
    ensures { result ≡ (bytes_eq sign.now (codes "-") && bytes_eq digits.now (codes "2147483648")) }
{
    sign == MINUS && digits == LEAST_INT
}

// The plan of a new array: the type of its elements, and the sizes.
#[tactic(auto, unfolding(kernel_meaning::specs::Plans::plan_of))]
fn array_plan(tree: &SyntaxTree<'_>, branch: &Branch<'_>) -> Result<OperandPlan, NoMemory>
    ensures { (scope : Plans.Scope) (s : States) → IfOk result (IsPlan (Plans.plan_of scope s
        NodeKind.NewArray branch.now.word.now branch.now.span.from
        (trees_of tree.now branch.now.id branch.now.children.now))) }
{
    let [_, sizes @ ..] = branch.children else {
        return Ok(OperandPlan::Fault(EvalError::WrongKind(branch.span.from)));
    };
    let count = count_of(sizes)?;
    match declared_by(tree, branch.part(0)) {
        Ok(of) => Ok(OperandPlan::Reads {
            row: Row::NewArray(of),
            from: 1,
            count,
        }),
        Err(place) => Ok(OperandPlan::Fault(EvalError::UnknownName(place))),
    }
}
