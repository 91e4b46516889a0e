// The builder, and the one way in for wires.
ghost use Rattle.std.specs.Prelude.{◌≡◌, length, IfOk};
ghost use Rattle.rtl_ir.specs.Value.{value};
ghost use Rattle.rtl_build.specs.Wires.{IsOpen, MayBeWire, wire_name, empty};
ghost use Rattle.rtl_build.specs.Signals.{Makes, no_contents};

use crate::signal::Signal;
use mx_base::{List, NoMemory, Text};
use rtl_ir::{Assign, Expr, Module, Net, NetId};
use std::alloc::Global;
use std::marker::Model;

/// A module that is being built. A contract sees the module. Its numbers are in range, and its ports
/// have nets.
///
/// Where a method answers `NoMemory`, there was no memory or the module has 2^32 nets. The module
/// isn't to be used from then on.
#[derive(Drop)]
pub struct Netlist {
    pub(crate) alloc: Global,
    pub(crate) built: Module,
}

impl Model for Netlist {
    ghost use Rattle.rtl_ir.specs.declared.design.Module.{Module};

    ghost Value = { Module };

    ghost use Rattle.rtl_build.specs.Wires.{IsOpen};

    ghost view = { λ a. a.built };

    ghost invariant = { λ a. IsOpen a.built };
}

// The number of a net after so many.
pub(crate) fn next_net(count: usize) -> Result<NetId, NoMemory>
    ensures { IfOk result (λ n. n ≡ count) }
{
    if count > u32::MAX as usize {
        return Err(NoMemory);
    }
    Ok(NetId::new(count as u32))
}

// The name of the wire that is net number `net`.
pub(crate) fn wire_name(alloc: Global, net: NetId) -> Result<Text, NoMemory>
    ensures { IfOk result (λ t. t ≡ wire_name net) }
{
    let number = net.index();
    let name = format!(in alloc; "w{number}")?;
    Ok(Text::from_vec(name.into_bytes()))
}

impl Netlist {
    /// The module of this name that has nothing yet.
    pub fn new(alloc: Global, name: Text) -> Self
        ensures { result ≡ empty name }
    {
        let built = Module {
            name,
            ports: List::new(alloc),
            nets: List::new(alloc),
            mems: List::new(alloc),
            assigns: List::new(alloc),
            updates: List::new(alloc),
            instances: List::new(alloc),
        };
        Netlist { alloc, built }
    }

    /// The module as it stands.
    pub fn module(&self) -> &Module
        ensures whole { result.now ≡ self.now }
        ensures open { IsOpen self.now }
    {
        &self.built
    }

    /// The module that was built.
    pub fn finish(self) -> Module
        ensures whole { result ≡ self }
        ensures open { IsOpen self }
    {
        self.built
    }

    /// A new wire of this expression, of this width in bits. It is named `w` and then its number among
    /// the nets. The expression reads no memory and no net of an output, and has the widths that
    /// `rtl_ir` asks for.
    pub fn wire(&mut self, width: u8, expr: Expr) -> Result<Signal, NoMemory>
        requires { MayBeWire self.old width expr }
        ensures { IfOk result (Makes self.old self.new 1 width (λ v. value self.old no_contents v width expr)) }
    {
        let net = next_net(self.built.nets.len())?;
        let name = wire_name(self.alloc, net)?;
        self.built.nets.push(Net {
            name,
            width,
            reg: false,
        })?;
        self.built.assigns.push(Assign { target: net, expr })?;
        Ok(Signal::new(net, width))
    }
}
