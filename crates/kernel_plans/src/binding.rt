// Parameters that get their values, and fields that have none yet.
ghost use Rattle.std.specs.Prelude.{◌≡◌, ◌≤◌, ◌∷◌, [], ℕ, List, length, drop, is_some, Ok, IfOk, OnOk};
ghost use Rattle.kernel_meaning.specs.declared.state.Binding.{Binding as Variable};
ghost use Rattle.kernel_meaning.specs.Constructors.{ahead, ahead_by, all_ahead, ctor_of};
ghost use Rattle.kernel_meaning.specs.Methods as Methods;
ghost use Rattle.kernel_meaning.specs.Names as Names;
ghost use Rattle.kernel_meaning.specs.Values as Values;
ghost use Rattle.kernel_rows.specs.Fit.{IsFit, AreFit};
ghost use Rattle.kernel_plans.specs.Called.{IsBound, IsBody, IsCtor, constructed};
ghost use Rattle.kernel_plans.specs.Classes.{members};
ghost use Rattle.kernel_rows.specs.Kept.{AreBoundFit};
ghost use Rattle.kernel_plans.specs.Trees.{tree_of, trees_of, branch_tree};

use crate::branch::{Branch, branch_at, declared_by};
use crate::class::Class;
use crate::kinds::has_kind;
use kernel_meaning::{Base, Binding, Bindings, Declared, EvalError, Value};
use maxj_syntax::{NodeId, NodeKind, SyntaxTree};
use mx_base::{List, NoMemory, Text};
use std::alloc::Global;

const VOID: &[u8] = b"void";

/// A method that is called, or a constructor: the type of its result, its parameters with their
/// values, and its block.
#[derive(Drop)]
pub struct Entered {
    pub wanted: Option<Declared>,
    pub variables: Bindings,
    pub block: Option<NodeId>,
}

// What is called: its node, the place of its first parameter among the node's parts, and the type
// of its result.
#[derive(Clone, Copy)]
struct Callee<'a> {
    node: Branch<'a>,
    first: usize,
    wanted: Option<Declared>,
}

// Whether there is a binding of this name.
fn is_bound(name: &[u8], variables: &Bindings) -> bool
    ensures { result ≡ is_some (Names.bound_in name.now variables.now) }
{
    variables.newest(name).is_some()
}

// A parameter gets its value, for the production at a place.
fn bind(
    alloc: Global,
    tree: &SyntaxTree<'_>,
    parameter: &Branch<'_>,
    user: u32,
    value: Value,
    variables: &mut Bindings,
) -> Result<(), EvalError>
    requires value { IsFit value }
    requires fit { AreBoundFit variables.old }
    ensures bound { IsBound user (branch_tree tree.now parameter.now) value variables.old variables.new result }
    ensures fit { OnOk result (AreBoundFit variables.new) }
{
    let parts = parameter.children.len();
    if parts != 1 {
        return Err(EvalError::UnknownName(user));
    }
    let of = match declared_by(tree, parameter.part(0)) {
        Ok(of) => of,
        Err(place) => return Err(EvalError::UnknownName(place)),
    };
    if is_bound(parameter.word, variables) {
        return Err(EvalError::NameTwice(parameter.span.from));
    }
    if !has_kind(of, &value) {
        return Err(EvalError::WrongKind(user));
    }
    let name = Text::from_vec(parameter.word.to_vec(alloc)?);
    variables.push(alloc, Binding { name, of, value })?;
    Ok(())
}

// The parameters get these values, for the production at a place, and behind them stands the block.
fn body(
    alloc: Global,
    tree: &SyntaxTree<'_>,
    callee: &Callee<'_>,
    user: u32,
    values: List<Value>,
) -> Result<Entered, EvalError>
    requires first { callee.now.first ≤ length callee.now.node.children.now }
    requires fit { AreFit values }
    ensures body { IsBody tree.now
        (Methods.body_by callee.now.wanted user
        (trees_of tree.now callee.now.node.id (drop callee.now.first callee.now.node.children.now))
        values (Ok []))
        result }
    ensures fit { IfOk result (λ entered. AreBoundFit entered.variables) }
{
    let node = &callee.node;
    let mut variables = Bindings::new(alloc);
    let mut place = callee.first;
    for value in values.into_vec() {
        if place >= node.children.len() {
            return Err(EvalError::UnknownName(user));
        }
        let parameter = branch_at(tree, node.part(place));
        bind(alloc, tree, &parameter, user, value, &mut variables)?;
        place += 1;
    }
    let left = node.children.len() - place;
    if left != 1 {
        return Err(EvalError::UnknownName(user));
    }
    Ok(Entered {
        wanted: callee.wanted,
        variables,
        block: node.part(place),
    })
}

// The type of a method's result: none of `void`. Its error is the place of what names no type.
fn result_of(tree: &SyntaxTree<'_>, id: Option<NodeId>) -> Result<Option<Declared>, u32>
    ensures { result ≡ Methods.result_by (tree_of tree.now id) }
{
    let node = branch_at(tree, id);
    if node.kind == NodeKind::Plain && node.word == VOID {
        return Ok(None);
    }
    match declared_by(tree, id) {
        Ok(of) => Ok(Some(of)),
        Err(place) => Err(place),
    }
}

/// The first method of a name, entered with these arguments, for the production at a place.
///
/// Its errors are `NoMemory`; `UnknownName` where there is no such method, a type is none or the
/// number of arguments is wrong; `NameTwice` of a parameter; and `WrongKind` of an argument.
pub fn enter(
    alloc: Global,
    class: &Class<'_>,
    name: &[u8],
    at: u32,
    values: List<Value>,
) -> Result<Entered, EvalError>
    requires { AreFit values }
    ensures body { IsBody class.now.cells
        (Methods.entered at values (Methods.method_of name.now (members class.now))) result }
    ensures fit { IfOk result (λ entered. AreBoundFit entered.variables) }
{
    let tree = class.tree();
    let Some(method) = class.method(name) else {
        return Err(EvalError::UnknownName(at));
    };
    let node = branch_at(tree, Some(method));
    let wanted = match result_of(tree, node.part(0)) {
        Ok(wanted) => wanted,
        Err(place) => return Err(EvalError::UnknownName(place)),
    };
    let callee = Callee {
        node,
        first: 1,
        wanted,
    };
    body(alloc, tree, &callee, at, values)
}

// The first constructor among the members.
fn constructor_of<'a>(class: &'a Class<'_>) -> Option<Branch<'a>>
    ensures { IsCtor class.now.cells (ctor_of (members class.now)) result }
{
    let tree = class.tree();
    let node = branch_at(tree, Some(class.node()));
    for place in 0..node.children.len() {
        let member = branch_at(tree, node.part(place));
        if member.kind == NodeKind::Ctor {
            return Some(member);
        }
    }
    None
}

/// The constructor of a class, entered with these arguments, the first one among them.
///
/// Its errors are `NoMemory`; `WrongKind` where there is no constructor, and of an argument;
/// `UnknownName` where a type is none or the number of arguments is wrong; and `NameTwice`.
pub fn constructor(
    alloc: Global,
    class: &Class<'_>,
    args: List<Value>,
) -> Result<Entered, EvalError>
    requires { AreFit args }
    ensures body { IsBody class.now.cells (constructed args (ctor_of (members class.now))) result }
    ensures fit { IfOk result (λ entered. AreBoundFit entered.variables) }
{
    let Some(node) = constructor_of(class) else {
        return Err(EvalError::WrongKind(0));
    };
    let at = node.span.from;
    if node.children.len() != args.len() + 1 {
        return Err(EvalError::UnknownName(at));
    }
    let callee = Callee {
        node,
        first: 0,
        wanted: None,
    };
    body(alloc, class.tree(), &callee, at, args)
}

// The type of a field, known ahead; a type without meaning is told in its turn.
fn type_ahead(tree: &SyntaxTree<'_>, id: Option<NodeId>) -> Declared
    ensures { (name : List ℕ) (fields : List Variable)
        → ahead_by name (Values.declared_by (tree_of tree.now id)) fields
        ≡ Names.declared name result fields }
{
    match declared_by(tree, id) {
        Ok(of) => of,
        Err(_) => Declared {
            base: Base::EngineParameters,
            rank: 0,
        },
    }
}

// A member is known as a field that isn't set, if it is one.
fn put_field(
    alloc: Global,
    tree: &SyntaxTree<'_>,
    member: Option<NodeId>,
    fields: &mut Bindings,
) -> Result<(), NoMemory>
    ensures { OnOk result (fields.new ≡ ahead (tree_of tree.now member) fields.old) }
{
    let field = branch_at(tree, member);
    let parts = field.children.len();
    if field.kind != NodeKind::Field || parts == 0 {
        return Ok(());
    }
    let of = type_ahead(tree, field.part(0));
    let name = Text::from_vec(field.word.to_vec(alloc)?);
    let value = Value::Nothing;
    fields.push(alloc, Binding { name, of, value })?;
    Ok(())
}

/// All fields of a class, known from the start and not set.
pub fn fields_ahead(alloc: Global, class: &Class<'_>) -> Result<Bindings, NoMemory>
    ensures fields { IfOk result (λ fields. fields ≡ all_ahead (members class.now) []) }
    ensures fit { IfOk result AreBoundFit }
{
    let tree = class.tree();
    let node = branch_at(tree, Some(class.node()));
    let mut fields = Bindings::new(alloc);
    for place in 0..node.children.len() {
        put_field(alloc, tree, node.part(place), &mut fields)?;
    }
    Ok(fields)
}
