// Numbers as words of another width.
ghost use Rattle.std.specs.Prelude.{◌≡◌, ◌+◌, ◌≤◌, ◌<◌, ◌^◌, true, length, IfOk};
ghost use Rattle.fix_arith.specs.Types.{width_of, is_signed};
ghost use Rattle.fix_arith.specs.Values.{value_of, reduced};
ghost use Rattle.fix_arith.specs.Rounding.{floor_of};
ghost use Rattle.rtl_ir.specs.Value.{bit};
ghost use Rattle.rtl_ops.specs.Orders.{is_below_zero};
ghost use Rattle.rtl_build.specs.Signals.{HasSignal, Makes};

use fix_arith::StreamType;
use mx_base::NoMemory;
use mx_bits::Word;
use rtl_build::{Netlist, Signal};

/// The type of whole numbers of this width that has negative ones where `t` has them.
pub fn whole_type(t: StreamType, width: u8) -> StreamType
    ensures width { width_of result ≡ width }
    ensures signed { is_signed result ≡ is_signed t }
{
    if t.is_signed() {
        StreamType::Int(width)
    } else {
        StreamType::UInt(width)
    }
}

/// One bit: 1 where the number of a signed type is below 0.
pub fn sign(netlist: &mut Netlist, t: StreamType, a: Signal) -> Result<Signal, NoMemory>
    requires a { HasSignal netlist.old a }
    requires a_type { a.width ≡ width_of t }
    requires signed { is_signed t ≡ true }
    ensures { IfOk result (Makes netlist.old netlist.new 1 1 (λ v. bit (is_below_zero t (v a.net)))) }
{
    netlist.part(a, a.width - 1, a.width - 1)
}

/// The bits that stand before a number, so many as the width says: all of them 1 where the number is
/// below 0, and 0 else.
pub fn sign_bits(
    netlist: &mut Netlist,
    t: StreamType,
    a: Signal,
    width: u8,
) -> Result<Signal, NoMemory>
    requires a { HasSignal netlist.old a }
    requires a_type { a.width ≡ width_of t }
    requires some { 1 ≤ width }
    requires at_most { width ≤ 128 }
    ensures { IfOk result (Makes netlist.old netlist.new 2 width
        (λ v. reduced width (floor_of (value_of t (v a.net)) (2 ^ width_of t)))) }
{
    if !t.is_signed() {
        return netlist.literal(Word::new(0, width));
    }
    let sign = sign(netlist, t, a)?;
    netlist.repeat(width, sign)
}

/// A number's word of this width: its low bits, or all of them with the sign before them.
pub fn resized(
    netlist: &mut Netlist,
    t: StreamType,
    a: Signal,
    width: u8,
) -> Result<Signal, NoMemory>
    requires a { HasSignal netlist.old a }
    requires a_type { a.width ≡ width_of t }
    requires some { 1 ≤ width }
    requires at_most { width ≤ 128 }
    ensures { IfOk result (Makes netlist.old netlist.new 3 width
        (λ v. reduced width (value_of t (v a.net)))) }
{
    if width == a.width {
        return Ok(a);
    }
    if width < a.width {
        return netlist.part(a, width - 1, 0);
    }
    let high = sign_bits(netlist, t, a, width - a.width)?;
    netlist.concat(high, a)
}

/// A number over two to `bits`, rounded down, as a word of this width.
pub fn floor(
    netlist: &mut Netlist,
    t: StreamType,
    a: Signal,
    bits: u8,
    width: u8,
) -> Result<Signal, NoMemory>
    requires a { HasSignal netlist.old a }
    requires a_type { a.width ≡ width_of t }
    requires some { 1 ≤ width }
    requires at_most { width ≤ 128 }
    ensures { IfOk result (Makes netlist.old netlist.new 4 width
        (λ v. reduced width (floor_of (value_of t (v a.net)) (2 ^ bits)))) }
{
    if a.width <= bits {
        return sign_bits(netlist, t, a, width);
    }
    let high = netlist.part(a, a.width - 1, bits)?;
    resized(netlist, whole_type(t, a.width - bits), high, width)
}
