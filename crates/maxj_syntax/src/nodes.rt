// The nodes of a tree, in 24 bytes each and 4 for each child.
ghost use Rattle.std.specs.Prelude.{◌≡◌, ◌<◌, ◌++◌, ◌∷◌, [], Some, None, length, slice_get, IfOk, OnOk, OnErr, IfSome, IfNone};
ghost use Rattle.maxj_syntax.specs.Store.{start_at, IsLent};

use crate::draft::{Draft, NodeWord, Packed};
use crate::tree::{NodeId, NodeKind};
use mx_base::{List, NoMemory, Span};
use std::alloc::Global;
use std::marker::Model;

/// The nodes of a tree. A contract sees the list of them, each with its children.
#[derive(Drop)]
pub struct Nodes {
    packed: List<Packed>,
    /// The children of all nodes.
    children: Vec<NodeId>,
}

impl Model for Nodes {
    ghost use Rattle.std.specs.Prelude.{List as Items, length};
    ghost use Rattle.maxj_syntax.specs.Store.{drafts, AreEnds};
    ghost use Rattle.maxj_syntax.specs.declared.draft.Draft.{Draft};

    ghost Value = { Items Draft };

    ghost view = { λ n. drafts 0 n.packed n.children.items };

    ghost invariant = { λ n. AreEnds 0 n.packed (length n.children.items) };
}

/// A node that is lent.
#[derive(Clone, Copy)]
pub struct Lent<'a> {
    pub kind: NodeKind,
    pub word: NodeWord,
    pub span: Span,
    pub children: &'a [NodeId],
}

/// Where the children of the node with this number begin.
fn start_of(packed: &[Packed], number: usize) -> usize
    requires { number < length packed.now }
    ensures { result ≡ start_at 0 packed.now number }
{
    match number.checked_sub(1) {
        Some(before) => packed[before].end as usize,
        None => 0,
    }
}

impl Nodes {
    /// No nodes, with room for so many.
    pub fn with_capacity(alloc: Global, capacity: usize) -> Result<Self, NoMemory>
        ensures { IfOk result (λ nodes. nodes ≡ []) }
    {
        let packed = Vec::with_capacity(alloc, capacity)?;
        let children = Vec::with_capacity(alloc, capacity)?;
        Ok(Nodes {
            packed: List::from_vec(packed),
            children,
        })
    }

    /// Adds a node at the end, and gives its number. Without memory the nodes stay as they were.
    pub fn push(&mut self, node: Draft) -> Result<NodeId, NoMemory>
        ensures number { IfOk result (λ n. n ≡ length self.old) }
        ensures nodes { OnOk result (self.new ≡ self.old ++ node ∷ []) }
        ensures err { OnErr result (self.new ≡ self.old) }
    {
        let number = self.packed.len();
        let start = self.children.len();
        let end = start.saturating_add(node.children.len());
        if number > u32::MAX as usize || end > u32::MAX as usize {
            return Err(NoMemory);
        }
        self.children.extend_from_slice(node.children.as_slice())?;
        let packed = Packed {
            kind: node.kind,
            word: node.word,
            span: node.span,
            end: end as u32,
        };
        match self.packed.push(packed) {
            Ok(_) => Ok(number as NodeId),
            Err(error) => {
                self.children.truncate(start);
                Err(error)
            }
        }
    }

    /// The node with this number, or `None` past the last one.
    pub fn get(&self, id: NodeId) -> Option<Lent<'_>>
        ensures some { IfSome result (IsLent self.now id) }
        ensures none { IfNone result (slice_get self.now id ≡ None) }
    {
        let number = id as usize;
        let packed = self.packed.get(number)?;
        let start = start_of(self.packed.as_slice(), number);
        let children = &self.children[start..packed.end as usize];
        Some(Lent {
            kind: packed.kind,
            word: packed.word,
            span: packed.span,
            children,
        })
    }
}
