// Modules, line by line.
ghost use Rattle.std.specs.Prelude.{◌≡◌, ◌++◌, ◌<◌, ℕ, OnOk, IfOk, length, false};
ghost use Rattle.std.specs.List.{flat_map, slice_index_or};
ghost use Rattle.rtl_text.specs.Text.{is_port};
ghost use Rattle.verilog_print.specs.Printed.{modules_text, module_text, ports_text, port_text, net_text, declared, nets_text, declaration_text, assign_text};

use crate::printer::Printer;
use mx_base::NoMemory;
use rtl_ir::{Assign, Module, Net, Port};
use std::alloc::Global;

impl Printer {
    /// The modules, each in lines of its own.
    pub fn modules(&mut self, alloc: Global, modules: &[Module]) -> Result<(), NoMemory>
        ensures ok { OnOk result (self.new.text ≡ self.old.text ++ modules_text modules.now) }
        ensures kept { self.new.before ≡ self.old.before }
    {
        for module in modules {
            self.module(alloc, modules, module)?;
        }
        Ok(())
    }

    #[tactic(auto, unfolding(crate::specs::Printed::module_text))]
    fn module(&mut self, alloc: Global, modules: &[Module], module: &Module) -> Result<(), NoMemory>
        ensures ok { OnOk result (self.new.text ≡ self.old.text ++ module_text modules.now «module».now) }
        ensures kept { self.new.before ≡ self.old.before }
    {
        let ports = module.ports.as_slice();
        let nets = module.nets.as_slice();
        self.bytes(b"module ")?;
        self.bytes(module.name.as_bytes())?;
        self.bytes(b" (\n")?;
        self.ports(nets, ports)?;
        self.bytes(b");\n")?;
        self.nets(alloc, ports, nets)?;
        self.memories(module.mems.as_slice())?;
        self.assigns(module)?;
        self.instances(modules, module)?;
        self.updates(module)?;
        self.bytes(b"endmodule\n")
    }

    fn ports(&mut self, nets: &[Net], ports: &[Port]) -> Result<(), NoMemory>
        ensures ok { OnOk result (self.new.text ≡ self.old.text ++ ports_text nets.now ports.now) }
        ensures kept { self.new.before ≡ self.old.before }
    {
        if let Some((first, others)) = ports.split_first() {
            self.port(nets, *first)?;
            for port in others {
                self.bytes(b",\n")?;
                self.port(nets, *port)?;
            }
        }
        Ok(())
    }

    fn port(&mut self, nets: &[Net], port: Port) -> Result<(), NoMemory>
        ensures ok { OnOk result (self.new.text ≡ self.old.text ++ port_text nets.now port) }
        ensures kept { self.new.before ≡ self.old.before }
    {
        self.bytes(if port.output {
            b"output wire "
        } else {
            b"input wire "
        })?;
        match nets.get(port.net.index()) {
            Some(net) => self.declared(net),
            None => Ok(()),
        }
    }

    // The range of a net, and its name.
    fn declared(&mut self, net: &Net) -> Result<(), NoMemory>
        ensures ok { OnOk result (self.new.text ≡ self.old.text ++ net_text (declared net.now)) }
        ensures kept { self.new.before ≡ self.old.before }
    {
        self.bytes(b"[")?;
        self.decimal(net.width.saturating_sub(1) as u32)?;
        self.bytes(b":0] ")?;
        self.bytes(net.name.as_bytes())
    }

    // The wires that are no port's, and the registers.
    #[tactic(auto, using(crate::proofs::Steps::nets_text_step))]
    fn nets(&mut self, alloc: Global, ports: &[Port], nets: &[Net]) -> Result<(), NoMemory>
        ensures ok { OnOk result (self.new.text ≡ self.old.text ++ nets_text ports.now 0 nets.now) }
        ensures kept { self.new.before ≡ self.old.before }
    {
        let joined = port_nets(alloc, ports, nets.len())?;
        for (number, net) in nets.iter().enumerate() {
            self.declaration(net, joined[number])?;
        }
        Ok(())
    }

    #[tactic(auto, unfolding(crate::specs::Printed::declaration_text))]
    fn declaration(&mut self, net: &Net, joined: bool) -> Result<(), NoMemory>
        ensures ok { OnOk result (self.new.text ≡ self.old.text ++ declaration_text joined net.now) }
        ensures kept { self.new.before ≡ self.old.before }
    {
        if net.reg {
            self.bytes(b"reg ")?;
        } else if joined {
            return Ok(());
        } else {
            self.bytes(b"wire ")?;
        }
        self.declared(net)?;
        self.bytes(b";\n")
    }

    fn assigns(&mut self, module: &Module) -> Result<(), NoMemory>
        ensures ok { OnOk result (self.new.text ≡ self.old.text ++ flat_map (assign_text «module».now) «module».now.assigns) }
        ensures kept { self.new.before ≡ self.old.before }
    {
        for assign in module.assigns.as_slice() {
            self.assign(module, *assign)?;
        }
        Ok(())
    }

    fn assign(&mut self, module: &Module, assign: Assign) -> Result<(), NoMemory>
        ensures ok { OnOk result (self.new.text ≡ self.old.text ++ assign_text «module».now assign) }
        ensures kept { self.new.before ≡ self.old.before }
    {
        self.bytes(b"assign ")?;
        self.name(module.nets.as_slice(), assign.target)?;
        self.bytes(b" = ")?;
        self.expr(module, assign.expr)?;
        self.bytes(b";\n")
    }
}

// Of each net whether it is a port's.
fn port_nets(alloc: Global, ports: &[Port], count: usize) -> Result<Vec<bool>, NoMemory>
    ensures length { IfOk result (λ joined. length joined.items ≡ count) }
    ensures marked { IfOk result (λ joined. (n : ℕ) → n < count → slice_index_or joined.items n false ≡ is_port ports.now n) }
{
    let mut joined = Vec::with_capacity(alloc, count)?;
    for _i in 0..count {
        joined.push(false)?;
    }
    for port in ports {
        let number = port.net.index();
        if number < joined.len() {
            joined[number] = true;
        }
    }
    Ok(joined)
}
