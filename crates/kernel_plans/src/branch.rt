// The nodes of a tree by their numbers, where what is missing is a node too.
ghost use Rattle.std.specs.Prelude.{◌≡◌, ◌<◌, ◌≤◌, ℕ, List, Option, Some, None, slice_get, IfSome};
ghost use Rattle.maxj_syntax.specs.Cells.{Cell};
ghost use Rattle.maxj_syntax.specs.Ranges.{IsInRange, AreInRange};
ghost use Rattle.kernel_meaning.specs.Nodes.{missing};
ghost use Rattle.kernel_meaning.specs.Values as Values;
ghost use Rattle.kernel_meaning.specs.Ways as Ways;
ghost use Rattle.kernel_plans.specs.Trees.{tree_of, branch_tree};

use crate::words::base_of;
use kernel_meaning::Declared;
use maxj_syntax::{NodeId, NodeKind, SyntaxTree};
use mx_base::Span;

/// A node of a tree with its number, lent by the tree, or the missing one.
#[derive(Clone, Copy)]
pub struct Branch<'a> {
    pub id: NodeId,
    pub kind: NodeKind,
    /// Empty where the kind has no word.
    pub word: &'a [u8],
    /// The bytes that it stands for.
    pub span: Span,
    /// The numbers of its parts. One that isn't smaller than its own is that of a missing part.
    pub children: &'a [NodeId],
}

impl Branch<'_> {
    /// The number of the part at a place, or `None` where it is missing: past the last part, or of
    /// a number that isn't smaller than its own.
    pub fn part(&self, place: usize) -> Option<NodeId>
        ensures past { slice_get self.now.children.now place ≡ None → result ≡ None }
        ensures before { (n : ℕ) → slice_get self.now.children.now place ≡ Some n → n < self.now.id
            → result ≡ Some n }
        ensures missing { (n : ℕ) → slice_get self.now.children.now place ≡ Some n → self.now.id ≤ n
            → result ≡ None }
        ensures below { IfSome result (λ n. n < self.now.id) }
    {
        let number = *self.children.get(place)?;
        if number < self.id { Some(number) } else { None }
    }
}

// The missing node, under this number.
fn missing_branch<'a>(id: NodeId) -> Branch<'a>
    ensures tree { (cells : List Cell) → branch_tree cells result ≡ missing }
    ensures kind { result.kind ≡ NodeKind.Empty }
    ensures number { result.id ≡ id }
{
    Branch {
        id,
        kind: NodeKind::Empty,
        word: b"",
        span: Span { from: 0, to: 0 },
        children: &[],
    }
}

/// The branch of a number: the missing one, of the kind `Empty` and without a word, a place and
/// parts, where there is no such node.
pub fn branch_at<'a>(tree: &'a SyntaxTree<'_>, id: Option<NodeId>) -> Branch<'a>
    ensures tree { tree_of tree.now id ≡ branch_tree tree.now result }
    ensures within { AreInRange tree.now → IsInRange result.kind result.word.now }
    ensures number { (n : ℕ) → id ≡ Some n → result.id ≡ n }
{
    let Some(number) = id else {
        return missing_branch(0);
    };
    match tree.node(number) {
        Some(node) => Branch {
            id: number,
            kind: node.kind,
            word: node.word,
            span: node.span,
            children: node.children,
        },
        None => missing_branch(number),
    }
}

/// Whether the tree is absent.
pub fn is_absent(tree: &SyntaxTree<'_>, id: Option<NodeId>) -> bool
    ensures { result ≡ Ways.is_absent (tree_of tree.now id) }
{
    branch_at(tree, id).kind == NodeKind::Empty
}

/// The type that a tree says, or the place of what names none.
pub fn declared_by(tree: &SyntaxTree<'_>, id: Option<NodeId>) -> Result<Declared, u32>
    ensures { result ≡ Values.declared_by (tree_of tree.now id) }
{
    let mut level = branch_at(tree, id);
    let mut rank = 0;
    while level.kind == NodeKind::ArrayOf {
        let [_] = level.children else {
            return Err(level.span.from);
        };
        let Some(elements) = level.part(0) else {
            return Err(0);
        };
        level = branch_at(tree, Some(elements));
        rank += 1;
    }
    match base_of(level.word) {
        Some(base) if level.kind == NodeKind::Plain => Ok(Declared { base, rank }),
        _ => Err(level.span.from),
    }
}
