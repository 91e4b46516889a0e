// Numbers over powers of two, rounded, and times powers of two.
ghost use Rattle.std.specs.Prelude.{◌≡◌, ◌+◌, ◌*◌, ◌%◌, ◌≤◌, ◌<◌, ◌^◌, ◌==◌, ◌&&◌, length, IfOk, pos, ◌*ℤ◌};
ghost use Rattle.fix_arith.specs.Types.{width_of};
ghost use Rattle.fix_arith.specs.Values.{value_of, reduced};
ghost use Rattle.fix_arith.specs.Rounding.{rounded, rounds_up};
ghost use Rattle.fix_arith.specs.Table.{bit_of};
ghost use Rattle.rtl_build.specs.Signals.{HasSignal, Makes};

use crate::literals::half;
use crate::widths::{floor, resized};
use fix_arith::{RoundMode, StreamType};
use mx_base::NoMemory;
use mx_bits::Word;
use rtl_build::{Netlist, Signal};
use rtl_ir::Sign;

/// A number times two to `bits`, as a word of this width.
pub fn shifted_left(
    netlist: &mut Netlist,
    t: StreamType,
    a: Signal,
    bits: u8,
    width: u8,
) -> Result<Signal, NoMemory>
    requires a { HasSignal netlist.old a }
    requires a_type { a.width ≡ width_of t }
    requires some { 1 ≤ width }
    requires at_most { width ≤ 128 }
    ensures { IfOk result (Makes netlist.old netlist.new 6 width
        (λ v. reduced width (value_of t (v a.net) *ℤ pos (2 ^ bits)))) }
{
    if bits == 0 {
        return resized(netlist, t, a, width);
    }
    if width <= bits {
        return netlist.literal(Word::new(0, width));
    }
    let high = resized(netlist, t, a, width - bits)?;
    let low = netlist.literal(Word::new(0, bits))?;
    netlist.concat(high, low)
}

// One bit: 1 where what is left of a number is one half and its floor is odd.
fn odd_tie(
    netlist: &mut Netlist,
    left: Signal,
    half: Signal,
    floor: Signal,
) -> Result<Signal, NoMemory>
    requires left { HasSignal netlist.old left }
    requires half { HasSignal netlist.old half }
    requires floor { HasSignal netlist.old floor }
    requires same { half.width ≡ left.width }
    ensures { IfOk result (Makes netlist.old netlist.new 3 1
        (λ v. bit_of (v left.net == v half.net && v floor.net % 2 == 1))) }
{
    let tie = netlist.binary(Sign::Eq, left, half)?;
    let odd = netlist.part(floor, 0, 0)?;
    netlist.binary(Sign::And, tie, odd)
}

// One bit: 1 where a number over two to `bits` goes to the even number above its floor, or is nearer
// to the one above it.
fn up_to_even(netlist: &mut Netlist, a: Signal, floor: Signal, bits: u8) -> Result<Signal, NoMemory>
    requires a { HasSignal netlist.old a }
    requires floor { HasSignal netlist.old floor }
    requires some { 1 ≤ bits }
    requires within { bits ≤ a.width }
    ensures { IfOk result (Makes netlist.old netlist.new 7 1
        (λ v. bit_of (rounds_up RoundMode.ToNearEven (v floor.net % 2 == 1) (v a.net % 2 ^ bits) (2 ^ bits)))) }
{
    let left = netlist.part(a, bits - 1, 0)?;
    let half = half(netlist, bits)?;
    let above = netlist.binary(Sign::Lt, half, left)?;
    let tie = odd_tie(netlist, left, half, floor)?;
    netlist.binary(Sign::Or, above, tie)
}

// One bit: 1 where the mode rounds a number over two to `bits` to the number above its floor.
fn rounds_up(
    netlist: &mut Netlist,
    mode: RoundMode,
    a: Signal,
    floor: Signal,
    bits: u8,
) -> Result<Signal, NoMemory>
    requires a { HasSignal netlist.old a }
    requires floor { HasSignal netlist.old floor }
    requires some { 1 ≤ bits }
    requires within { bits ≤ a.width }
    ensures { IfOk result (Makes netlist.old netlist.new 7 1
        (λ v. bit_of (rounds_up mode (v floor.net % 2 == 1) (v a.net % 2 ^ bits) (2 ^ bits)))) }
{
    match mode {
        RoundMode::Truncate => netlist.literal(Word::new(0, 1)),
        RoundMode::ToNear => netlist.part(a, bits - 1, bits - 1),
        RoundMode::ToNearEven => up_to_even(netlist, a, floor, bits),
    }
}

/// A number over two to `bits`, rounded by the mode, as a word of this width.
pub fn rounded(
    netlist: &mut Netlist,
    mode: RoundMode,
    t: StreamType,
    a: Signal,
    bits: u8,
    width: u8,
) -> Result<Signal, NoMemory>
    requires a { HasSignal netlist.old a }
    requires a_type { a.width ≡ width_of t }
    requires within { bits ≤ a.width }
    requires some { 1 ≤ width }
    requires at_most { width ≤ 128 }
    ensures { IfOk result (Makes netlist.old netlist.new 15 width
        (λ v. reduced width (rounded mode (value_of t (v a.net)) (2 ^ bits)))) }
{
    if bits == 0 {
        return resized(netlist, t, a, width);
    }
    let floor = floor(netlist, t, a, bits, width)?;
    if matches!(mode, RoundMode::Truncate) {
        return Ok(floor);
    }
    let up = rounds_up(netlist, mode, a, floor, bits)?;
    let more = resized(netlist, StreamType::Bool, up, width)?;
    netlist.binary(Sign::Add, floor, more)
}
