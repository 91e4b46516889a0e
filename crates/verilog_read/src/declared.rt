// The names that a module declares.
ghost use Rattle.std.specs.Prelude.{◌≡◌, ◌∷◌, ◌++◌, [], length, OnOk};
ghost use Rattle.rtl_ir.specs.declared.design.Net.{Net};
ghost use Rattle.rtl_ir.specs.declared.design.Mem.{Mem};
ghost use Rattle.rtl_ir.specs.declared.design.Module.{Module};
ghost use Rattle.rtl_text.specs.Text.{IsNet, IsMem};
ghost use Rattle.rtl_reading.specs.Uses.{Scope, net, register, memory};
ghost use Rattle.verilog_read.specs.Built.{HasNets};
ghost use Rattle.verilog_read.specs.Walk.{Gives, HasTables};

use crate::fault::Fault;
use crate::table::Table;
use mx_base::NoMemory;
use rtl_ir::{MemId, NetId};
use std::alloc::Global;

/// The numbers of a module's nets, of those that are registers, and of its memories, by name.
#[derive(Drop)]
pub(crate) struct Declared<'a> {
    pub(crate) nets: Table<'a>,
    pub(crate) registers: Table<'a>,
    pub(crate) memories: Table<'a>,
}

impl<'a> Declared<'a> {
    pub(crate) fn new(alloc: Global) -> Self
        ensures { (m : Module) → m.nets ≡ [] → m.mems ≡ [] → HasTables m result }
    {
        Declared {
            nets: Table::new(alloc),
            registers: Table::new(alloc),
            memories: Table::new(alloc),
        }
    }

    /// Declares a net, a register among them.
    pub(crate) fn add_net(&mut self, name: &'a [u8], number: u32, reg: bool) -> Result<(), NoMemory>
        ensures { (m : Module) (n : Net) → n.name ≡ name.now → n.reg ≡ reg → number ≡ length m.nets → HasTables m self.old
            → OnOk result (HasTables (record m { nets = m.nets ++ n ∷ [] }) self.new) }
    {
        self.nets.declare(name, number)?;
        if reg {
            self.registers.declare(name, number)
        } else {
            Ok(())
        }
    }

    /// Declares a memory.
    pub(crate) fn add_memory(&mut self, name: &'a [u8], number: u32) -> Result<(), NoMemory>
        ensures { (m : Module) (k : Mem) → k.name ≡ name.now → number ≡ length m.mems → HasTables m self.old
            → OnOk result (HasTables (record m { mems = m.mems ++ k ∷ [] }) self.new) }
    {
        self.memories.declare(name, number)
    }

    /// The net of this name.
    pub(crate) fn net(&self, name: &'a [u8]) -> Result<NetId, Fault<'a>>
        ensures { (sc : Scope) (m : Module) → HasNets sc m → HasTables m self.now
            → Gives result (net sc name.now ∷ []) (IsNet m name.now) }
    {
        match self.nets.number(name) {
            Some(net) => Ok(NetId::new(net)),
            None => Err(Fault::Unknown(name)),
        }
    }

    /// The register of this name.
    pub(crate) fn register(&self, name: &'a [u8]) -> Result<NetId, Fault<'a>>
        ensures { (sc : Scope) (m : Module) → HasNets sc m → HasTables m self.now
            → Gives result (register sc name.now ∷ []) (IsNet m name.now) }
    {
        match self.registers.number(name) {
            Some(register) => Ok(NetId::new(register)),
            None => Err(Fault::Unknown(name)),
        }
    }

    /// The memory of this name.
    pub(crate) fn memory(&self, name: &'a [u8]) -> Result<MemId, Fault<'a>>
        ensures { (sc : Scope) (m : Module) → HasNets sc m → HasTables m self.now
            → Gives result (memory sc name.now ∷ []) (IsMem m name.now) }
    {
        match self.memories.number(name) {
            Some(memory) => Ok(MemId::new(memory)),
            None => Err(Fault::Unknown(name)),
        }
    }
}
