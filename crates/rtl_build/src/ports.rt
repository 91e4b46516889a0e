// Ports, and what outputs are given.
ghost use Rattle.std.specs.Prelude.{◌≡◌, ◌≤◌, true, false, IfOk};
ghost use Rattle.rtl_build.specs.Signals.{HasSignal};
ghost use Rattle.rtl_build.specs.Ports.{AddsPort, HasOutput, Drives};

use crate::netlist::{Netlist, next_net};
use crate::signal::Signal;
use mx_base::{NoMemory, Text};
use rtl_ir::{Assign, Expr, Net, Port};

impl Netlist {
    // A new port, the last one, of a new net with this name.
    fn port(&mut self, name: Text, width: u8, output: bool) -> Result<Signal, NoMemory>
        ensures { IfOk result (AddsPort self.old self.new name width output) }
    {
        let net = next_net(self.built.nets.len())?;
        self.built.nets.push(Net {
            name,
            width,
            reg: false,
        })?;
        self.built.ports.push(Port { net, output })?;
        Ok(Signal::new(net, width))
    }

    /// A new input, the last port, of 1 to 128 bits (IEEE 1364-2005, 12.3.3).
    pub fn input(&mut self, name: Text, width: u8) -> Result<Signal, NoMemory>
        requires some { 1 ≤ width }
        requires at_most { width ≤ 128 }
        ensures port { IfOk result (AddsPort self.old self.new name width false) }
        ensures signal { IfOk result (HasSignal self.new) }
    {
        self.port(name, width, false)
    }

    /// A new output, the last port, of 1 to 128 bits, whose value `drive` gives (IEEE 1364-2005, 12.3.3).
    pub fn output(&mut self, name: Text, width: u8) -> Result<Signal, NoMemory>
        requires some { 1 ≤ width }
        requires at_most { width ≤ 128 }
        ensures port { IfOk result (AddsPort self.old self.new name width true) }
        ensures signal { IfOk result (HasOutput self.new) }
    {
        self.port(name, width, true)
    }

    /// Gives an output the value of a signal of its width (IEEE 1364-2005, 6.1).
    pub fn drive(&mut self, output: Signal, source: Signal) -> Result<(), NoMemory>
        requires output { HasOutput self.old output }
        requires source { HasSignal self.old source }
        requires same { source.width ≡ output.width }
        ensures { IfOk result (λ _. Drives self.old self.new output source) }
    {
        let (target, expr) = (output.net(), Expr::Net(source.net()));
        self.built.assigns.push(Assign { target, expr })?;
        Ok(())
    }
}
