// The items of a module.
ghost use Rattle.std.specs.Prelude.{◌≡◌, List, [], ◌∷◌, ◌++◌, map};
ghost use Rattle.rtl_ir.specs.declared.design.Module.{Module};
ghost use Rattle.rtl_ir.specs.declared.design.Update.{Update};
ghost use Rattle.rtl_text.specs.Tree.{Name, AssignItem, AlwaysItem};
ghost use Rattle.rtl_text.specs.Text.{Pairwise, UpdateIs};
ghost use Rattle.verilog_syntax.specs.Trees.{expr_view, update_view, item_view};
ghost use Rattle.rtl_reading.specs.Uses.{Scope, item_uses, items_uses, updates_uses};
ghost use Rattle.verilog_read.specs.Built.{HasNets};
ghost use Rattle.verilog_read.specs.Walk.{Gives, HasTables, IsBuilt, AreEarlier, IsUpdated, with_item, item_scope};

use crate::builder::Builder;
use crate::declared::Declared;
use crate::fault::Fault;
use crate::instance::Earlier;
use mx_base::List;
use rtl_ir::{Assign, Update};
use std::alloc::Global;
use verilog_syntax::{ExprTree, ItemTree, UpdateTree};

/// Adds these updates.
fn add_updates<'a>(
    declared: &Declared<'a>,
    trees: &[UpdateTree<'a>],
    updates: &mut List<Update>,
) -> Result<(), Fault<'a>>
    ensures { (sc : Scope) (m : Module) → HasNets sc m → HasTables m declared.now
        → Gives result (updates_uses sc (map update_view trees.now)) (λ _. IsUpdated m (map update_view trees.now) updates.old updates.new) }
{
    for tree in trees {
        let update = declared.update(*tree)?;
        updates.push(update)?;
    }
    Ok(())
}

impl<'a> Builder<'a> {
    /// Adds an assignment.
    fn assign(&mut self, name: &'a [u8], tree: ExprTree<'a>) -> Result<(), Fault<'a>>
        ensures { (named : Name) (sc : Scope) → IsBuilt named sc self.old
            → Gives result (item_uses sc (AssignItem name.now (expr_view tree.entry)))
            (λ _. IsBuilt named (with_item sc (AssignItem name.now (expr_view tree.entry))) self.new) }
    {
        let target = self.declared.net(name)?;
        let expr = self.declared.expr(tree)?;
        self.module.assigns.push(Assign { target, expr })?;
        Ok(())
    }

    /// Adds the updates at the clock's edge.
    fn always(&mut self, trees: &[UpdateTree<'a>]) -> Result<(), Fault<'a>>
        ensures { (named : Name) (sc : Scope) → IsBuilt named sc self.old
            → Gives result (item_uses sc (AlwaysItem (map update_view trees.now)))
            (λ _. IsBuilt named (with_item sc (AlwaysItem (map update_view trees.now))) self.new) }
    {
        add_updates(&self.declared, trees, &mut self.module.updates)
    }

    /// Adds an item.
    fn item(
        &mut self,
        alloc: Global,
        earlier: Earlier<'_, 'a>,
        item: &ItemTree<'a>,
    ) -> Result<(), Fault<'a>>
        ensures { (named : Name) (sc : Scope) → AreEarlier earlier.entry sc.modules → IsBuilt named sc self.old
            → Gives result (item_uses sc (item_view item.now)) (λ _. IsBuilt named (with_item sc (item_view item.now)) self.new) }
    {
        match item {
            ItemTree::Wire(width, name) => {
                self.add_net(alloc, name, *width, false)?;
                Ok(())
            }
            ItemTree::Register(width, name) => {
                self.add_net(alloc, name, *width, true)?;
                Ok(())
            }
            ItemTree::Memory(width, name, depth) => {
                self.add_memory(alloc, name, *width, *depth)?;
                Ok(())
            }
            ItemTree::Assign(name, expr) => self.assign(name, *expr),
            ItemTree::Always(updates) => self.always(updates.as_slice()),
            ItemTree::Instance(of, name, connections) => {
                let instance = self
                    .declared
                    .instance(alloc, earlier, of, name, connections.as_slice())?;
                self.module.instances.push(instance)?;
                Ok(())
            }
        }
    }

    /// Adds the items of a module.
    pub(crate) fn items(
        &mut self,
        alloc: Global,
        earlier: Earlier<'_, 'a>,
        items: &[ItemTree<'a>],
    ) -> Result<(), Fault<'a>>
        ensures { (named : Name) (sc : Scope) → sc.items ≡ [] → AreEarlier earlier.entry sc.modules → IsBuilt named sc self.old
            → Gives result (items_uses sc.modules sc.ports [] (map item_view items.now))
            (λ _. IsBuilt named (item_scope sc (map item_view items.now)) self.new) }
    {
        for item in items {
            self.item(alloc, earlier, item)?;
        }
        Ok(())
    }
}
