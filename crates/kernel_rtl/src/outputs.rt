// What the outputs of a kernel's module are given.
ghost use Rattle.std.specs.Prelude.{All, OnOk};
ghost use Rattle.rtl_delays.specs.Steps.{IsSound};
ghost use Rattle.kernel_control.specs.Outputs.{AreUndriven};
ghost use Rattle.kernel_rtl.specs.Words.{data_nets, MayBeDriven, DrivesWords};

use kernel_ports::StreamSignals;
use mx_base::NoMemory;
use rtl_build::{Netlist, Signal};

/// Gives the word of each output that of its node.
pub(crate) fn drive_words(
    netlist: &mut Netlist,
    words: &[Signal],
    outputs: &[StreamSignals],
) -> Result<(), NoMemory>
    requires sound { IsSound netlist.old }
    requires outputs { All (MayBeDriven netlist.old words.now) outputs.now }
    requires undriven { AreUndriven netlist.old (data_nets outputs.now) }
    ensures { OnOk result (DrivesWords netlist.old netlist.new words.now outputs.now) }
{
    for port in outputs {
        netlist.drive(port.word, words[port.node as usize])?;
    }
    Ok(())
}
