// What ports wait for.
ghost use Rattle.std.specs.Prelude.{◌*◌, ◌&&◌, nat_eq, length, All, IfOk};
ghost use Rattle.rtl_ir.specs.Value.{bit};
ghost use Rattle.rtl_build.specs.Signals.{Makes};
ghost use Rattle.kernel_control.specs.Nets.{HasWidth};
ghost use Rattle.kernel_control.specs.Serving.{serves, all_serve, IsDuePort};

use mx_base::NoMemory;
use rtl_build::{Netlist, Signal};
use rtl_ir::Sign;

// A port with the bit that says whether it is due.
#[derive(Clone, Copy)]
pub(crate) struct DuePort {
    pub(crate) due: Signal,
    pub(crate) waits_for: Signal,
    pub(crate) answer: Signal,
}

// One bit: 1 where a test holds and the port, if it is due, has what it waits for.
fn served(netlist: &mut Netlist, test: Signal, port: DuePort) -> Result<Signal, NoMemory>
    requires test { HasWidth netlist.old 1 test }
    requires port { IsDuePort netlist.old port }
    ensures { IfOk result (Makes netlist.old netlist.new 3 1
        (λ v. bit (nat_eq (v test.net) 1 && serves v port))) }
{
    let idle = netlist.not(port.due)?;
    let ready = netlist.binary(Sign::Or, idle, port.waits_for)?;
    netlist.binary(Sign::And, test, ready)
}

// One bit: 1 where a test holds and each port that is due has what it waits for.
pub(crate) fn all_served(
    netlist: &mut Netlist,
    test: Signal,
    ports: &[DuePort],
) -> Result<Signal, NoMemory>
    requires test { HasWidth netlist.old 1 test }
    requires ports { All (IsDuePort netlist.old) ports.now }
    ensures { IfOk result (Makes netlist.old netlist.new (3 * length ports.now) 1
        (λ v. bit (all_serve (nat_eq (v test.net) 1) ports.now v))) }
{
    let mut all = test;
    for port in ports {
        all = served(netlist, all, *port)?;
    }
    Ok(all)
}
