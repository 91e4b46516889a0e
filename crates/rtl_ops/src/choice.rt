// Multiplexers.
ghost use Rattle.std.specs.Prelude.{◌≡◌, ◌+◌, ◌*◌, ◌≤◌, ◌<◌, ◌^◌, ◌==◌, if◌then◌else◌, All, length, map, slice_get, IfOk};
ghost use Rattle.rtl_build.specs.Signals.{HasSignal, Makes, MakesWhere};

use mx_base::NoMemory;
use mx_bits::Word;
use rtl_build::{Netlist, Signal};
use rtl_ir::{NetId, Sign};

// One signal where the selector is the number, and another one else.
fn preferred(
    netlist: &mut Netlist,
    selector: Signal,
    number: usize,
    option: Signal,
    other: Signal,
) -> Result<Signal, NoMemory>
    requires selector { HasSignal netlist.old selector }
    requires option { HasSignal netlist.old option }
    requires other { HasSignal netlist.old other }
    requires same { other.width ≡ option.width }
    requires number { number < 2 ^ selector.width }
    ensures { IfOk result (Makes netlist.old netlist.new 3 option.width
        (λ v. if v selector.net == number then v option.net else v other.net)) }
{
    let number = netlist.literal(Word::new(number as u128, selector.width))?;
    let meant = netlist.binary(Sign::Eq, selector, number)?;
    netlist.choose(meant, option, other)
}

/// The option, of this width, that the selector numbers from 0, and any value past the last option.
pub fn choice(
    netlist: &mut Netlist,
    selector: Signal,
    options: &[NetId],
    width: u8,
) -> Result<Signal, NoMemory>
    requires selector { HasSignal netlist.old selector }
    requires options { All (λ n. HasSignal netlist.old (record { net = n; width = width })) options.now }
    requires some { 1 ≤ length options.now }
    requires numbered { length options.now ≤ 2 ^ selector.width }
    ensures { IfOk result (MakesWhere netlist.old netlist.new (3 * length options.now) width
        (λ v. slice_get (map v options.now) (v selector.net))) }
{
    let mut chosen = Signal::new(options[0], width);
    for (k, net) in options[1..].iter().enumerate() {
        let option = Signal::new(*net, width);
        chosen = preferred(netlist, selector, k + 1, option, chosen)?;
    }
    Ok(chosen)
}
