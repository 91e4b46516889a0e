// Comparisons of two signals of one type.
ghost use Rattle.std.specs.Prelude.{◌≡◌, ◌+◌, ◌-◌, ◌≤◌, ◌<◌, ◌^◌, length, IfOk};
ghost use Rattle.std.specs.Ordering.{int_cmp, is_eq, is_ne, is_lt, is_le};
ghost use Rattle.fix_arith.specs.Types.{width_of};
ghost use Rattle.fix_arith.specs.Values.{value_of};
ghost use Rattle.fix_arith.specs.Table.{bit_of};
ghost use Rattle.rtl_ops.specs.Orders.{rank_of};
ghost use Rattle.rtl_build.specs.Signals.{HasSignal, Makes};

use crate::literals::half;
use fix_arith::StreamType;
use mx_base::NoMemory;
use rtl_build::{Netlist, Signal};
use rtl_ir::Sign;

// How far the signal's number lies above the least number of its type. Adding half of all words to a
// signed one turns its sign.
fn rank(netlist: &mut Netlist, t: StreamType, a: Signal) -> Result<Signal, NoMemory>
    requires a { HasSignal netlist.old a }
    requires a_type { a.width ≡ width_of t }
    ensures { IfOk result (Makes netlist.old netlist.new 2 a.width (λ v. rank_of t (v a.net))) }
{
    if !t.is_signed() {
        return Ok(a);
    }
    let half = half(netlist, a.width)?;
    netlist.binary(Sign::Add, a, half)
}

/// One bit: 1 where both numbers are one.
pub fn equal(netlist: &mut Netlist, t: StreamType, a: Signal, b: Signal) -> Result<Signal, NoMemory>
    requires a { HasSignal netlist.old a }
    requires b { HasSignal netlist.old b }
    requires a_type { a.width ≡ width_of t }
    requires b_type { b.width ≡ width_of t }
    ensures { IfOk result (Makes netlist.old netlist.new 1 1
        (λ v. bit_of (is_eq (int_cmp (value_of t (v a.net)) (value_of t (v b.net)))))) }
{
    netlist.binary(Sign::Eq, a, b)
}

/// One bit: 1 where the numbers differ.
pub fn unequal(
    netlist: &mut Netlist,
    t: StreamType,
    a: Signal,
    b: Signal,
) -> Result<Signal, NoMemory>
    requires a { HasSignal netlist.old a }
    requires b { HasSignal netlist.old b }
    requires a_type { a.width ≡ width_of t }
    requires b_type { b.width ≡ width_of t }
    ensures { IfOk result (Makes netlist.old netlist.new 2 1
        (λ v. bit_of (is_ne (int_cmp (value_of t (v a.net)) (value_of t (v b.net)))))) }
{
    let same = equal(netlist, t, a, b)?;
    netlist.not(same)
}

/// One bit: 1 where the first number is below the second one.
pub fn less(netlist: &mut Netlist, t: StreamType, a: Signal, b: Signal) -> Result<Signal, NoMemory>
    requires a { HasSignal netlist.old a }
    requires b { HasSignal netlist.old b }
    requires a_type { a.width ≡ width_of t }
    requires b_type { b.width ≡ width_of t }
    ensures { IfOk result (Makes netlist.old netlist.new 5 1
        (λ v. bit_of (is_lt (int_cmp (value_of t (v a.net)) (value_of t (v b.net)))))) }
{
    let left = rank(netlist, t, a)?;
    let right = rank(netlist, t, b)?;
    netlist.binary(Sign::Lt, left, right)
}

/// One bit: 1 where the first number is at most the second one.
pub fn at_most(
    netlist: &mut Netlist,
    t: StreamType,
    a: Signal,
    b: Signal,
) -> Result<Signal, NoMemory>
    requires a { HasSignal netlist.old a }
    requires b { HasSignal netlist.old b }
    requires a_type { a.width ≡ width_of t }
    requires b_type { b.width ≡ width_of t }
    ensures { IfOk result (Makes netlist.old netlist.new 6 1
        (λ v. bit_of (is_le (int_cmp (value_of t (v a.net)) (value_of t (v b.net)))))) }
{
    let above = less(netlist, t, b, a)?;
    netlist.not(above)
}
