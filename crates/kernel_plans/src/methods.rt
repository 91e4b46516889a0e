// The methods of a class by their names.
ghost use Rattle.std.specs.Prelude.{◌≡◌, List, ℕ, OnOk, IfOk};
ghost use Rattle.maxj_syntax.specs.Cells.{Cell};
ghost use Rattle.maxj_syntax.specs.Tree.{Trees, Nil, Cons};
ghost use Rattle.kernel_plans.specs.Trees.{tree_of, trees_of};
ghost use Rattle.kernel_plans.specs.Tables.{named_in, AreMethods};

use crate::branch::{Branch, branch_at};
use indexmap::IndexMap;
use maxj_syntax::{NodeId, NodeKind, SyntaxTree};
use mx_base::NoMemory;
use std::alloc::Global;

/// A method: its node, and the number of its parameters.
#[derive(Clone, Copy)]
pub(crate) struct Method {
    pub(crate) node: NodeId,
    pub(crate) params: u32,
}

/// The first method of each name.
#[derive(Drop)]
pub(crate) struct Methods<'a> {
    by_name: IndexMap<&'a [u8], Method>,
}

impl<'a> Methods<'a> {
    fn new(alloc: Global) -> Self
        ensures { (cells : List Cell) → AreMethods cells Nil result }
    {
        Methods {
            by_name: IndexMap::new(alloc),
        }
    }

    /// Puts a member before the others: if it is a method, it is the first one of its name.
    fn put(&mut self, tree: &'a SyntaxTree<'_>, member: Option<NodeId>) -> Result<(), NoMemory>
        ensures { (members : Trees) → AreMethods tree.now members self.old
            → OnOk result (AreMethods tree.now (Cons (tree_of tree.now member) members) self.new) }
    {
        let Some(node) = member else {
            return Ok(());
        };
        let method = branch_at(tree, member);
        let parts = method.children.len();
        if method.kind != NodeKind::Method || parts == 0 {
            return Ok(());
        }
        let params = parts.saturating_sub(2);
        if params > u32::MAX as usize {
            return Err(NoMemory);
        }
        let params = params as u32;
        self.by_name.insert(method.word, Method { node, params })?;
        Ok(())
    }

    /// The first method of this name.
    pub(crate) fn get(&self, name: &[u8]) -> Option<Method>
        ensures { result ≡ named_in self.now.by_name name.now }
    {
        self.by_name.get(name).copied()
    }
}

/// The methods among the parts of a class.
pub(crate) fn methods_of<'a>(
    alloc: Global,
    tree: &'a SyntaxTree<'_>,
    class: &Branch<'_>,
) -> Result<Methods<'a>, NoMemory>
    ensures { IfOk result (AreMethods tree.now (trees_of tree.now class.now.id class.now.children.now)) }
{
    let mut methods = Methods::new(alloc);
    for place in (0..class.children.len()).rev() {
        methods.put(tree, class.part(place))?;
    }
    Ok(methods)
}
