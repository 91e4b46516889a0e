// What ports are told.
ghost use Rattle.std.specs.Prelude.{◌≡◌, false, All, OnOk};
ghost use Rattle.rtl_delays.specs.Steps.{IsSound};
ghost use Rattle.rtl_delays.specs.Driven.{is_driven};
ghost use Rattle.kernel_control.specs.Nets.{HasWidth};
ghost use Rattle.kernel_control.specs.Outputs.{AreUndriven};
ghost use Rattle.kernel_control.specs.Serving.{IsDuePort};
ghost use Rattle.kernel_control.specs.Answers.{answers_of, AnswersOne, AnswersAll};

use crate::serving::DuePort;
use mx_base::NoMemory;
use rtl_build::{Netlist, Signal};
use rtl_ir::Sign;

// Tells a port, where it is due, that the kernel advances.
fn answer(netlist: &mut Netlist, run: Signal, port: DuePort) -> Result<(), NoMemory>
    requires sound { IsSound netlist.old }
    requires run { HasWidth netlist.old 1 run }
    requires port { IsDuePort netlist.old port }
    requires undriven { is_driven port.answer.net netlist.old.assigns ≡ false }
    ensures { OnOk result (AnswersOne netlist.old netlist.new run.net port) }
{
    let told = netlist.binary(Sign::And, run, port.due)?;
    netlist.drive(port.answer, told)
}

// Tells each port, where it is due, that the kernel advances.
pub(crate) fn answer_all(
    netlist: &mut Netlist,
    run: Signal,
    ports: &[DuePort],
) -> Result<(), NoMemory>
    requires sound { IsSound netlist.old }
    requires run { HasWidth netlist.old 1 run }
    requires ports { All (IsDuePort netlist.old) ports.now }
    requires undriven { AreUndriven netlist.old (answers_of ports.now) }
    ensures { OnOk result (AnswersAll netlist.old netlist.new run.net ports.now) }
{
    for port in ports {
        answer(netlist, run, *port)?;
    }
    Ok(())
}
