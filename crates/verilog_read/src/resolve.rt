// The design of trees, with names made numbers.
ghost use Rattle.std.specs.Prelude.{◌≡◌, List, [], map};
ghost use Rattle.rtl_text.specs.Tree.{ModuleTree as Tree};
ghost use Rattle.verilog_syntax.specs.Trees.{module_view};
ghost use Rattle.rtl_reading.specs.Uses.{module_uses, text_uses};
ghost use Rattle.verilog_read.specs.Built.{IsSaid};
ghost use Rattle.verilog_read.specs.Walk.{Gives, AreEarlier, AreSaid, module_scope};

use crate::builder::{Builder, next_number};
use crate::fault::Fault;
use crate::instance::Earlier;
use crate::ports::has_clock;
use crate::table::Table;
use mx_base::List;
use rtl_ir::{Design, Module};
use std::alloc::Global;
use verilog_syntax::ModuleTree;

/// The module of a tree.
fn resolve_module<'a>(
    alloc: Global,
    earlier: Earlier<'_, 'a>,
    tree: &ModuleTree<'a>,
) -> Result<Module, Fault<'a>>
    ensures { (modules : List Tree) → AreEarlier earlier.entry modules
        → Gives result (module_uses modules (module_view tree.now)) (IsSaid tree.now.name.now (module_scope modules (module_view tree.now))) }
{
    let mut builder = Builder::new(alloc, tree.name)?;
    builder.ports(alloc, tree.ports.as_slice())?;
    has_clock(tree.ports.as_slice())?;
    builder.items(alloc, earlier, tree.items.as_slice())?;
    Ok(builder.module)
}

/// The design of trees, or the first name that is used and isn't declared before.
pub(crate) fn resolve<'a>(alloc: Global, trees: &[ModuleTree<'a>]) -> Result<Design, Fault<'a>>
    ensures { Gives result (text_uses [] (map module_view trees.now)) (λ d. AreSaid (map module_view trees.now) d.modules) }
{
    let mut modules = List::new(alloc);
    let mut numbers = Table::new(alloc);
    for number in 0..trees.len() {
        let earlier = Earlier {
            trees: &trees[..number],
            numbers: &numbers,
        };
        let tree = &trees[number];
        let found = resolve_module(alloc, earlier, tree)?;
        numbers.declare(tree.name, next_number(number)?)?;
        modules.push(found)?;
    }
    Ok(Design { modules })
}
