// Names with dots between them, which aren't evaluated where the first is no variable.
ghost use Rattle.std.specs.Prelude.{◌≡◌, true, is_some, Some, None, IfOk, IfSome, IfNone};
ghost use Rattle.maxj_syntax.specs.Tree.{Node, Nil, Cons};
ghost use Rattle.kernel_meaning.specs.Names as Names;
ghost use Rattle.kernel_meaning.specs.declared.state.State.{State as States};
ghost use Rattle.kernel_plans.specs.Dots.{IsUndotted};
ghost use Rattle.kernel_plans.specs.Trees.{tree_of, branch_tree};

use crate::branch::{Branch, branch_at};
use crate::variables::variable;
use kernel_meaning::{Stack, State};
use maxj_syntax::{NodeId, NodeKind, SyntaxTree};
use mx_base::{NoMemory, Text};
use std::alloc::Global;

// The words that are no variables.
const TRUE: &[u8] = b"true";

const FALSE: &[u8] = b"false";

const THIS: &[u8] = b"this";

// The names with which the library's paths begin.
const IO: &[u8] = b"io";

const STREAM: &[u8] = b"stream";

const CONTROL: &[u8] = b"control";

const CONSTANT: &[u8] = b"constant";

const REDUCTIONS: &[u8] = b"Reductions";

const OPTIMIZATION: &[u8] = b"optimization";

const SIGN_MODE: &[u8] = b"SignMode";

const ROUNDING_MODE: &[u8] = b"RoundingMode";

/// Whether the tree is `this` or a path: it isn't evaluated.
pub fn is_mute(state: &State, tree: &SyntaxTree<'_>, id: Option<NodeId>) -> bool
    ensures { result ≡ Names.is_mute state.now (tree_of tree.now id) }
{
    is_this(tree, id) || is_path(&root(tree, id), state)
}

/// Where a tree that isn't evaluated is told to have no meaning.
pub fn mute_place(tree: &SyntaxTree<'_>, id: Option<NodeId>) -> u32
    ensures { result ≡ Names.mute_place (tree_of tree.now id) }
{
    let root = root(tree, id);
    if is_this(tree, id) || is_root(root.word) {
        branch_at(tree, id).span.from
    } else {
        root.span.from
    }
}

/// Whether the tree is `this`.
pub fn is_this(tree: &SyntaxTree<'_>, id: Option<NodeId>) -> bool
    ensures { result ≡ Names.is_this (tree_of tree.now id) }
{
    let branch = branch_at(tree, id);
    match branch.kind {
        NodeKind::Name => branch.word == THIS,
        _ => false,
    }
}

/// Whether the library's paths begin with this name.
pub fn is_root(word: &[u8]) -> bool
    ensures { result ≡ Names.is_root word.now }
{
    word == IO
        || word == STREAM
        || word == CONSTANT
        || word == CONTROL
        || word == REDUCTIONS
        || word == OPTIMIZATION
        || word == SIGN_MODE
        || word == ROUNDING_MODE
}

/// What stands before all dots: the first name of a path.
pub fn root<'a>(tree: &'a SyntaxTree<'_>, id: Option<NodeId>) -> Branch<'a>
    ensures word { Names.root_word (tree_of tree.now id) ≡ result.word.now }
    ensures place { Names.root_place (tree_of tree.now id) ≡ result.span.from }
    ensures path { (s : States) → is_some (Names.path_of s (tree_of tree.now id))
        ≡ is_some (Names.path_of s (Node result.kind result.word.now result.span Nil)) }
{
    let mut branch = branch_at(tree, id);
    while let Some(base) = before_dot(tree, &branch) {
        branch = base;
    }
    branch
}

/// Whether what stands before all dots is a name and no variable, so that a path begins with it.
pub fn is_path(root: &Branch<'_>, state: &State) -> bool
    ensures { result ≡ is_some (Names.path_of state.now
        (Node root.now.kind root.now.word.now root.now.span Nil)) }
{
    match root.kind {
        NodeKind::Name => !is_value_word(root.word) && variable(root.word, state).is_none(),
        _ => false,
    }
}

/// A path, as it is written.
pub fn written_path(
    alloc: Global,
    tree: &SyntaxTree<'_>,
    id: Option<NodeId>,
) -> Result<Text, NoMemory>
    ensures { IfOk result (λ text. (s : States)
        → is_some (Names.path_of s (tree_of tree.now id)) ≡ true
        → Names.path_of s (tree_of tree.now id) ≡ Some text) }
{
    let mut behind = Stack::new(alloc);
    let mut branch = branch_at(tree, id);
    while let Some(base) = before_dot(tree, &branch) {
        behind.push(branch.word)?;
        branch = base;
    }
    let mut path = text_of(alloc, branch.word)?;
    while let Some(word) = behind.pop() {
        path.append(b".")?;
        path.append(word)?;
    }
    Ok(path)
}

/// The text of these bytes.
pub fn text_of(alloc: Global, bytes: &[u8]) -> Result<Text, NoMemory>
    ensures { IfOk result (λ text. text ≡ bytes.now) }
{
    Ok(Text::from_vec(bytes.to_vec(alloc)?))
}

// What stands before the dot, where the branch is a name behind a dot.
fn before_dot<'a>(tree: &'a SyntaxTree<'_>, branch: &Branch<'_>) -> Option<Branch<'a>>
    ensures some { IfSome result (λ base. branch_tree tree.now branch.now
        ≡ Node NodeKind.Dot branch.now.word.now branch.now.span
        (Cons (branch_tree tree.now base) Nil)) }
    ensures none { IfNone result (IsUndotted (branch_tree tree.now branch.now)) }
{
    let NodeKind::Dot = branch.kind else {
        return None;
    };
    if branch.children.len() != 1 {
        return None;
    }
    Some(branch_at(tree, branch.part(0)))
}

fn is_value_word(word: &[u8]) -> bool
    ensures { result ≡ Names.is_value_word word.now }
{
    word == TRUE || word == FALSE || word == THIS
}
