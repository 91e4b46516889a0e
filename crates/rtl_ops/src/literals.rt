// Words of one number.
ghost use Rattle.std.specs.Prelude.{◌-◌, ◌≤◌, ◌^◌, IfOk};
ghost use Rattle.rtl_build.specs.Signals.{Makes};

use mx_base::NoMemory;
use mx_bits::Word;
use rtl_build::{Netlist, Signal};

/// Half of the number of words of this width: the word whose top bit alone is 1.
pub fn half(netlist: &mut Netlist, width: u8) -> Result<Signal, NoMemory>
    requires some { 1 ≤ width }
    requires at_most { width ≤ 128 }
    ensures { IfOk result (Makes netlist.old netlist.new 1 width (λ v. 2 ^ (width - 1))) }
{
    netlist.literal(Word::new(1 << (width - 1), width))
}
