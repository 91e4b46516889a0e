// Products of numbers with bits behind the point.
ghost use Rattle.std.specs.Prelude.{◌≡◌, ◌+◌, ◌*◌, ◌≤◌, ◌<◌, ◌^◌, length, IfOk, ◌*ℤ◌};
ghost use Rattle.fix_arith.specs.Types.{width_of};
ghost use Rattle.fix_arith.specs.Values.{value_of, reduced};
ghost use Rattle.fix_arith.specs.Rounding.{rounded};
ghost use Rattle.rtl_build.specs.Signals.{HasSignal, Makes};

use crate::rounding::rounded;
use crate::widths::{resized, whole_type};
use fix_arith::{RoundMode, StreamType};
use mx_base::NoMemory;
use rtl_build::{Netlist, Signal};
use rtl_ir::Sign;

// The product of two numbers of one type, in twice as many bits: all of it.
fn exact_product(
    netlist: &mut Netlist,
    t: StreamType,
    a: Signal,
    b: Signal,
) -> Result<Signal, NoMemory>
    requires a { HasSignal netlist.old a }
    requires b { HasSignal netlist.old b }
    requires a_type { a.width ≡ width_of t }
    requires b_type { b.width ≡ width_of t }
    requires narrow { width_of t ≤ 64 }
    ensures { IfOk result (Makes netlist.old netlist.new 7 (2 * width_of t)
        (λ v. reduced (2 * width_of t) (value_of t (v a.net) *ℤ value_of t (v b.net)))) }
{
    let width = 2 * a.width;
    let left = resized(netlist, t, a, width)?;
    let right = resized(netlist, t, b, width)?;
    netlist.binary(Sign::Mul, left, right)
}

/// The product of two numbers of one type over two to `bits`, rounded by the mode, as a word of the
/// type's width.
pub fn product(
    netlist: &mut Netlist,
    mode: RoundMode,
    t: StreamType,
    a: Signal,
    b: Signal,
    bits: u8,
) -> Result<Signal, NoMemory>
    requires a { HasSignal netlist.old a }
    requires b { HasSignal netlist.old b }
    requires a_type { a.width ≡ width_of t }
    requires b_type { b.width ≡ width_of t }
    requires narrow { width_of t ≤ 64 }
    requires within { bits ≤ width_of t }
    ensures { IfOk result (Makes netlist.old netlist.new 22 (width_of t)
        (λ v. reduced (width_of t) (rounded mode (value_of t (v a.net) *ℤ value_of t (v b.net)) (2 ^ bits)))) }
{
    let exact = exact_product(netlist, t, a, b)?;
    let wide = whole_type(t, exact.width);
    rounded(netlist, mode, wide, exact, bits, a.width)
}
