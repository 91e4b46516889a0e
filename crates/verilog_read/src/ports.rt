// The ports of a module.
ghost use Rattle.std.specs.Prelude.{◌≡◌, List, [], ◌∷◌, ◌++◌, map, IfOk};
ghost use Rattle.std.specs.List.{list_any};
ghost use Rattle.rtl_text.specs.Tree.{Name, PortTree as Tree, ModuleTree, InputPort, OutputPort};
ghost use Rattle.verilog_syntax.specs.Trees.{port_view};
ghost use Rattle.rtl_reading.specs.Uses.{is_bit_input, port_uses};
ghost use Rattle.verilog_read.specs.Walk.{Gives, IsBuilt, port_scope, port_tree};

use crate::builder::Builder;
use crate::fault::Fault;
use mx_base::NoMemory;
use rtl_ir::Port;
use std::alloc::Global;
use verilog_syntax::PortTree;

impl<'a> Builder<'a> {
    fn add_port(
        &mut self,
        alloc: Global,
        name: &'a [u8],
        width: u8,
        output: bool,
    ) -> Result<(), NoMemory>
        ensures { (named : Name) (modules : List ModuleTree) (before : List Tree) → IsBuilt named (port_scope modules before) self.old
            → IfOk result (λ _. IsBuilt named (port_scope modules (before ++ port_tree name.now width output ∷ [])) self.new) }
    {
        let net = self.add_net(alloc, name, width, false)?;
        self.module.ports.push(Port { net, output })?;
        Ok(())
    }

    /// Adds a port.
    fn port(&mut self, alloc: Global, port: PortTree<'a>) -> Result<(), NoMemory>
        ensures { (named : Name) (modules : List ModuleTree) (before : List Tree) → IsBuilt named (port_scope modules before) self.old
            → IfOk result (λ _. IsBuilt named (port_scope modules (before ++ port_view port.entry ∷ [])) self.new) }
    {
        match port {
            PortTree::Input(width, name) => self.add_port(alloc, name, width, false),
            PortTree::Output(width, name) => self.add_port(alloc, name, width, true),
        }
    }

    /// Adds the ports of a module.
    pub(crate) fn ports(&mut self, alloc: Global, ports: &[PortTree<'a>]) -> Result<(), NoMemory>
        ensures { (named : Name) (modules : List ModuleTree) → IsBuilt named (port_scope modules []) self.old
            → IfOk result (λ _. IsBuilt named (port_scope modules (map port_view ports.now)) self.new) }
    {
        for port in ports {
            self.port(alloc, *port)?;
        }
        Ok(())
    }
}

/// Whether a port is an input of 1 bit with this name.
fn is_input(port: PortTree<'_>, name: &[u8]) -> bool
    ensures { result ≡ is_bit_input name.now (port_view port.entry) }
{
    match port {
        PortTree::Input(width, found) => width == 1 && found == name,
        PortTree::Output(_, _) => false,
    }
}

/// Whether there is an input of 1 bit with this name.
fn has_input(ports: &[PortTree<'_>], name: &[u8]) -> bool
    ensures { result ≡ list_any (is_bit_input name.now) (map port_view ports.now) }
{
    for port in ports {
        if is_input(*port, name) {
            return true;
        }
    }
    false
}

/// Tests that a module has the inputs `clk` and `reset`.
pub(crate) fn has_clock<'a>(ports: &[PortTree<'_>]) -> Result<(), Fault<'a>>
    ensures { Gives result (port_uses (map port_view ports.now)) (λ _. Unit {0}) }
{
    if !has_input(ports, b"clk") {
        return Err(Fault::Unknown(b"clk"));
    }
    if !has_input(ports, b"reset") {
        return Err(Fault::Unknown(b"reset"));
    }
    Ok(())
}
