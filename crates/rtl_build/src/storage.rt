// Registers, memories and what they are given at an edge.
ghost use Rattle.std.specs.Prelude.{◌≡◌, ◌≤◌, ◌<◌, IfOk, length};
ghost use Rattle.rtl_ir.specs.Typed.{word_width};
ghost use Rattle.rtl_ir.specs.declared.design.Target.TheVariants as targets;
ghost use Rattle.rtl_build.specs.Signals.{HasSignal};
ghost use Rattle.rtl_build.specs.Storage.{HasRegister, HasMemory, AddsRegister, AddsUpdate, AddsMemory, ReadsCell, AddsInstance};

use crate::netlist::{Netlist, next_net, wire_name};
use crate::signal::Signal;
use mx_base::{List, NoMemory, Text};
use rtl_ir::{Assign, Expr, Instance, Mem, MemId, ModuleId, Net, NetId, Target, Update};

// The number of a memory after so many.
fn next_memory(count: usize) -> Result<MemId, NoMemory>
    ensures { IfOk result (λ n. n ≡ count) }
{
    if count > u32::MAX as usize {
        return Err(NoMemory);
    }
    Ok(MemId::new(count as u32))
}

impl Netlist {
    /// A new register with this name, of 1 to 128 bits (IEEE 1364-2005, 4.2.2). It keeps its value but
    /// where an update writes it.
    pub fn register(&mut self, name: Text, width: u8) -> Result<Signal, NoMemory>
        requires some { 1 ≤ width }
        requires at_most { width ≤ 128 }
        ensures { IfOk result (AddsRegister self.old self.new name width) }
    {
        let net = next_net(self.built.nets.len())?;
        self.built.nets.push(Net {
            name,
            width,
            reg: true,
        })?;
        Ok(Signal::new(net, width))
    }

    /// Writes a value into a register of its width at each rising edge of the clock where `enable`, of
    /// one bit, is 1 (IEEE 1364-2005, 9.2.2).
    pub fn update(
        &mut self,
        enable: Signal,
        register: Signal,
        value: Signal,
    ) -> Result<(), NoMemory>
        requires enable { HasSignal self.old enable }
        requires register { HasRegister self.old register }
        requires value { HasSignal self.old value }
        requires bit { enable.width ≡ 1 }
        requires same { value.width ≡ register.width }
        ensures { IfOk result (λ _. AddsUpdate self.old self.new
            (record { enable = enable.net; target = targets.Reg register.net; value = value.net })) }
    {
        let target = Target::Reg(register.net());
        let (enable, value) = (enable.net(), value.net());
        self.built.updates.push(Update {
            enable,
            target,
            value,
        })?;
        Ok(())
    }

    /// A new memory with this name, of `depth` words of `width` bits (IEEE 1364-2005, 4.9.3). The width
    /// is 1 to 128 and the depth 1 to 2^28.
    pub fn memory(&mut self, name: Text, width: u8, depth: u32) -> Result<MemId, NoMemory>
        ensures { IfOk result (AddsMemory self.old self.new name width depth) }
    {
        let memory = next_memory(self.built.mems.len())?;
        self.built.mems.push(Mem { name, width, depth })?;
        Ok(memory)
    }

    /// A wire with the word of a memory at the address that a signal has (IEEE 1364-2005, 5.2.2). Past
    /// the depth it is 0, where the standard has `x`.
    pub fn cell(&mut self, memory: MemId, address: Signal) -> Result<Signal, NoMemory>
        requires memory { HasMemory self.old memory }
        requires address { HasSignal self.old address }
        ensures { IfOk result (ReadsCell self.old self.new memory address) }
    {
        let width = self.built.word_width(memory);
        let net = next_net(self.built.nets.len())?;
        let name = wire_name(self.alloc, net)?;
        let expr = Expr::Cell(memory, address.net());
        self.built.nets.push(Net {
            name,
            width,
            reg: false,
        })?;
        self.built.assigns.push(Assign { target: net, expr })?;
        Ok(Signal::new(net, width))
    }

    /// Writes a value into the word of a memory at an address at each rising edge of the clock where
    /// `enable`, of one bit, is 1. Past the depth nothing is written.
    pub fn write(
        &mut self,
        enable: Signal,
        memory: MemId,
        address: Signal,
        value: Signal,
    ) -> Result<(), NoMemory>
        requires enable { HasSignal self.old enable }
        requires memory { memory < length self.old.mems }
        requires address { HasSignal self.old address }
        requires value { HasSignal self.old value }
        requires bit { enable.width ≡ 1 }
        requires same { value.width ≡ word_width self.old memory }
        ensures { IfOk result (λ _. AddsUpdate self.old self.new
            (record { enable = enable.net; target = targets.Cell memory address.net; value = value.net })) }
    {
        let target = Target::Cell(memory, address.net());
        let (enable, value) = (enable.net(), value.net());
        self.built.updates.push(Update {
            enable,
            target,
            value,
        })?;
        Ok(())
    }

    /// An instance with this name of an earlier module of the design, with one net for each of its
    /// ports, in the order of the ports (IEEE 1364-2005, 12.1.2). A net of an output of the inner module
    /// gets its value from it alone.
    pub fn instance(
        &mut self,
        inner: ModuleId,
        name: Text,
        nets: List<NetId>,
    ) -> Result<(), NoMemory>
        ensures { IfOk result (λ _. AddsInstance self.old self.new (record { «module» = inner; name = name; nets = nets })) }
    {
        self.built.instances.push(Instance {
            module: inner,
            name,
            nets,
        })?;
        Ok(())
    }
}
