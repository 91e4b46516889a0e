//! Prints a design as a Verilog text (IEEE 1364-2005, the subset of this compiler).
#![tactic(auto)]

mod expr;
mod instance;
mod module;
mod printer;
mod storage;

ghost use Rattle.std.specs.Prelude.{◌≡◌, OnOk, OnErr};
ghost use Rattle.rtl_ir.specs.Formed.{IsFormed};
ghost use Rattle.rtl_ir.specs.Rules.{IsAccepted};
ghost use Rattle.rtl_reading.specs.Reads.{ArePortsFirst};
ghost use Rattle.verilog_print.specs.Lines.{AppendsLines};
ghost use Rattle.verilog_print.specs.Appended.{AppendsText, AppendsReading, AppendsRenumbered};

use mx_base::NoMemory;
use printer::Printer;
use rtl_ir::Design;
use std::alloc::Global;
use std::mem;

/// Appends a text of the design: one port, declaration, assignment, update or instance per line.
/// Reading the text gives an accepted design back up to the numbers of its nets, and with these numbers
/// where the ports are the first nets of each module.
/// After want of memory `out` is as it was.
pub fn print(alloc: Global, design: &Design, out: &mut Vec<u8>) -> Result<(), NoMemory>
    requires formed { IsFormed design.now.modules }
    ensures ok { OnOk result (AppendsText out.old.items out.new.items design.now) }
    ensures lines { OnOk result (AppendsLines out.old.items out.new.items design.now) }
    ensures reads_back { OnOk result (IsAccepted design.now → ArePortsFirst design.now → AppendsReading out.old.items out.new.items design.now) }
    ensures reads_renumbered { OnOk result (IsAccepted design.now → AppendsRenumbered out.old.items out.new.items design.now) }
    ensures err { OnErr result (out.new.items ≡ out.old.items) }
{
    let mut printer = Printer::after(mem::replace(out, Vec::new(alloc)));
    match printer.modules(alloc, design.modules.as_slice()) {
        Ok(()) => {
            *out = printer.into_vec();
            Ok(())
        }
        Err(error) => {
            printer.undo();
            *out = printer.into_vec();
            Err(error)
        }
    }
}
