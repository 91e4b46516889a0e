// A class with its methods, and the library that it may use.
ghost use Rattle.std.specs.Prelude.{◌≡◌};
ghost use Rattle.std.specs.Prelude.{IfOk};
ghost use Rattle.kernel_meaning.specs.Constructors.{is_manager};
ghost use Rattle.kernel_meaning.specs.Methods.{method_of, params_of};
ghost use Rattle.kernel_plans.specs.Tables.{IsMethod};
ghost use Rattle.kernel_plans.specs.Classes.{library_of, members, kernel_in};

use crate::branch::branch_at;
use crate::kernels::KernelClasses;
use crate::methods::{Methods, methods_of};
use maxj_syntax::{NodeId, SyntaxTree};
use mx_base::NoMemory;
use std::alloc::Global;
use std::marker::Model;

/// The library that a class may use: that of kernels, or that of managers, which add kernels by the
/// names of their classes.
#[derive(Clone, Copy)]
pub enum Library<'a> {
    OfKernel,
    OfManager(&'a KernelClasses<'a>),
}

/// A class: its tree, its methods by their names, and its library.
#[derive(Drop)]
pub struct Class<'a> {
    tree: &'a SyntaxTree<'a>,
    node: NodeId,
    library: Library<'a>,
    methods: Methods<'a>,
}

impl<'a> Model for Class<'a> {
    ghost use Rattle.kernel_meaning.specs.Constructors.{members_of};
    ghost use Rattle.kernel_meaning.specs.Nodes.{tree_at};
    ghost use Rattle.kernel_plans.specs.Classes.{ClassView};
    ghost use Rattle.kernel_plans.specs.Tables.{AreMethods};

    ghost Value = { ClassView };

    ghost view = { λ c. record { cells = c.tree.now; node = c.node; library = c.library } };

    ghost invariant = { λ c. AreMethods c.tree.now (members_of (tree_at c.tree.now c.node)) c.methods };
}

impl<'a> Class<'a> {
    /// The class of this node.
    pub fn new(
        alloc: Global,
        tree: &'a SyntaxTree<'a>,
        node: NodeId,
        library: Library<'a>,
    ) -> Result<Self, NoMemory>
        ensures { IfOk result (λ class.
            class ≡ record { cells = tree.now; node = node; library = library.entry }) }
    {
        let methods = methods_of(alloc, tree, &branch_at(tree, Some(node)))?;
        Ok(Class {
            tree,
            node,
            library,
            methods,
        })
    }

    /// The nodes of the source that the class stands in.
    pub fn tree(&self) -> &'a SyntaxTree<'a>
        ensures { result.now ≡ self.now.cells }
    {
        self.tree
    }

    /// The node of the class.
    pub fn node(&self) -> NodeId
        ensures { result ≡ self.now.node }
    {
        self.node
    }

    /// The node of the first method of this name.
    pub fn method(&self, name: &[u8]) -> Option<NodeId>
        ensures { IsMethod self.now.cells (method_of name.now (members self.now)) result }
    {
        Some(self.methods.get(name)?.node)
    }

    /// How many parameters the first method of this name has.
    pub fn params(&self, name: &[u8]) -> Option<u32>
        ensures { result ≡ params_of (members self.now) name.now }
    {
        Some(self.methods.get(name)?.params)
    }

    /// The number of the class of the kernel with this name, where this one is a manager.
    pub fn kernel_class(&self, name: &[u8]) -> Option<u32>
        ensures { result ≡ kernel_in (library_of self.now.library) name.now }
    {
        match self.library {
            Library::OfKernel => None,
            Library::OfManager(kernels) => kernels.number(name),
        }
    }

    /// Whether the class is a manager.
    pub fn is_manager(&self) -> bool
        ensures { result ≡ is_manager (library_of self.now.library) }
    {
        match self.library {
            Library::OfKernel => false,
            Library::OfManager(_) => true,
        }
    }
}
