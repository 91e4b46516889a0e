// A module as far as its text was read.
ghost use Rattle.std.specs.Prelude.{◌≡◌, ◌∷◌, ◌++◌, [], List, length, IfOk};
ghost use Rattle.rtl_ir.specs.declared.design.Net.{Net};
ghost use Rattle.rtl_ir.specs.declared.design.Mem.{Mem};
ghost use Rattle.rtl_text.specs.Tree.{ModuleTree};
ghost use Rattle.rtl_reading.specs.Uses.{Scope};
ghost use Rattle.verilog_read.specs.Walk.{IsBuilt, HasTables};

use crate::declared::Declared;
use mx_base::{List, NoMemory, Text};
use rtl_ir::{Mem, Module, Net, NetId};
use std::alloc::Global;

/// A module, and the numbers of what it declares.
#[derive(Drop)]
pub(crate) struct Builder<'a> {
    pub(crate) declared: Declared<'a>,
    pub(crate) module: Module,
}

/// A text of these bytes.
pub(crate) fn text(alloc: Global, bytes: &[u8]) -> Result<Text, NoMemory>
    ensures { IfOk result (λ t. t ≡ bytes.now) }
{
    Ok(Text::from_vec(bytes.to_vec(alloc)?))
}

/// The number of the next thing, where there are so many: at more than 2^32 of them, no memory is left.
pub(crate) fn next_number(count: usize) -> Result<u32, NoMemory>
    ensures { IfOk result (λ n. n ≡ count) }
{
    if count > u32::MAX as usize {
        return Err(NoMemory);
    }
    Ok(count as u32)
}

impl<'a> Builder<'a> {
    /// A module of this name with nothing in it.
    pub(crate) fn new(alloc: Global, name: &[u8]) -> Result<Self, NoMemory>
        ensures { (modules : List ModuleTree) → IfOk result (IsBuilt name.now (record { modules = modules; ports = []; items = [] })) }
    {
        let module = Module {
            name: text(alloc, name)?,
            ports: List::new(alloc),
            nets: List::new(alloc),
            mems: List::new(alloc),
            assigns: List::new(alloc),
            updates: List::new(alloc),
            instances: List::new(alloc),
        };
        Ok(Builder {
            declared: Declared::new(alloc),
            module,
        })
    }

    /// Declares a net, and gives its number.
    pub(crate) fn add_net(
        &mut self,
        alloc: Global,
        name: &'a [u8],
        width: u8,
        reg: bool,
    ) -> Result<NetId, NoMemory>
        ensures number { IfOk result (λ n. n ≡ length self.old.module.nets) }
        ensures module { IfOk result (λ n. self.new.module ≡ record self.old.module {
          nets = self.old.module.nets ++ record { name = name.now; width = width; reg = reg } ∷ [];
        }) }
        ensures tables { HasTables self.old.module self.old.declared → IfOk result (λ n. HasTables self.new.module self.new.declared) }
    {
        let number = next_number(self.module.nets.len())?;
        self.declared.add_net(name, number, reg)?;
        let net = Net {
            name: text(alloc, name)?,
            width,
            reg,
        };
        self.module.nets.push(net)?;
        Ok(NetId::new(number))
    }

    /// Declares a memory.
    pub(crate) fn add_memory(
        &mut self,
        alloc: Global,
        name: &'a [u8],
        width: u8,
        depth: u32,
    ) -> Result<(), NoMemory>
        ensures module { IfOk result (λ n. self.new.module ≡ record self.old.module {
          mems = self.old.module.mems ++ record { name = name.now; width = width; depth = depth } ∷ [];
        }) }
        ensures tables { HasTables self.old.module self.old.declared → IfOk result (λ n. HasTables self.new.module self.new.declared) }
    {
        let number = next_number(self.module.mems.len())?;
        self.declared.add_memory(name, number)?;
        let memory = Mem {
            name: text(alloc, name)?,
            width,
            depth,
        };
        self.module.mems.push(memory)?;
        Ok(())
    }
}
