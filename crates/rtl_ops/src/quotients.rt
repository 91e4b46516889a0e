// Opposites, and quotients rounded toward zero.
ghost use Rattle.std.specs.Prelude.{◌≡◌, ◌+◌, ◌-◌, ◌%◌, ◌≤◌, ◌<◌, ◌^◌, ◌==◌, if◌then◌else◌, true, length, IfOk, unsigned_abs, int_div};
ghost use Rattle.fix_arith.specs.Types.{width_of, is_signed};
ghost use Rattle.fix_arith.specs.Values.{value_of, reduced};
ghost use Rattle.rtl_ir.specs.Value.{bit, quotient};
ghost use Rattle.rtl_ops.specs.Orders.{is_below_zero, differ};
ghost use Rattle.rtl_build.specs.Signals.{HasSignal, Makes, MakesWhere};

use crate::widths::sign;
use fix_arith::StreamType;
use mx_base::NoMemory;
use mx_bits::Word;
use rtl_build::{Netlist, Signal};
use rtl_ir::Sign;

/// A word's opposite: 0 less the word.
pub fn opposite(netlist: &mut Netlist, a: Signal) -> Result<Signal, NoMemory>
    requires a { HasSignal netlist.old a }
    ensures { IfOk result (Makes netlist.old netlist.new 2 a.width
        (λ v. (0 + (2 ^ a.width - v a.net)) % 2 ^ a.width)) }
{
    let zero = netlist.literal(Word::new(0, a.width))?;
    netlist.binary(Sign::Sub, zero, a)
}

// The size of a number of a signed type, without its sign.
fn size(netlist: &mut Netlist, t: StreamType, a: Signal) -> Result<Signal, NoMemory>
    requires a { HasSignal netlist.old a }
    requires a_type { a.width ≡ width_of t }
    requires signed { is_signed t ≡ true }
    ensures { IfOk result (Makes netlist.old netlist.new 4 a.width (λ v. unsigned_abs (value_of t (v a.net)))) }
{
    let negative = sign(netlist, t, a)?;
    let opposite = opposite(netlist, a)?;
    netlist.choose(negative, opposite, a)
}

// One bit: 1 where one number of a signed type is below 0 and another one isn't.
fn signs_differ(
    netlist: &mut Netlist,
    t: StreamType,
    a: Signal,
    b: Signal,
) -> Result<Signal, NoMemory>
    requires a { HasSignal netlist.old a }
    requires b { HasSignal netlist.old b }
    requires a_type { a.width ≡ width_of t }
    requires b_type { b.width ≡ width_of t }
    requires signed { is_signed t ≡ true }
    ensures { IfOk result (Makes netlist.old netlist.new 3 1
        (λ v. bit (differ (is_below_zero t (v a.net)) (is_below_zero t (v b.net))))) }
{
    let left = sign(netlist, t, a)?;
    let right = sign(netlist, t, b)?;
    netlist.binary(Sign::Xor, left, right)
}

// The quotient of the sizes of two numbers of a signed type.
fn size_quotient(
    netlist: &mut Netlist,
    t: StreamType,
    a: Signal,
    b: Signal,
) -> Result<Signal, NoMemory>
    requires a { HasSignal netlist.old a }
    requires b { HasSignal netlist.old b }
    requires a_type { a.width ≡ width_of t }
    requires b_type { b.width ≡ width_of t }
    requires signed { is_signed t ≡ true }
    ensures { IfOk result (Makes netlist.old netlist.new 9 a.width
        (λ v. quotient (unsigned_abs (value_of t (v a.net))) (unsigned_abs (value_of t (v b.net))))) }
{
    let left = size(netlist, t, a)?;
    let right = size(netlist, t, b)?;
    netlist.binary(Sign::Div, left, right)
}

// The quotient of two numbers of a signed type.
fn signed_quotient(
    netlist: &mut Netlist,
    t: StreamType,
    a: Signal,
    b: Signal,
) -> Result<Signal, NoMemory>
    requires a { HasSignal netlist.old a }
    requires b { HasSignal netlist.old b }
    requires a_type { a.width ≡ width_of t }
    requires b_type { b.width ≡ width_of t }
    requires signed { is_signed t ≡ true }
    ensures { IfOk result (MakesWhere netlist.old netlist.new 15 (width_of t)
        (λ v. if v b.net == 0 then None else Some (reduced (width_of t) (int_div (value_of t (v a.net)) (value_of t (v b.net)))))) }
{
    let quotient = size_quotient(netlist, t, a, b)?;
    let opposite = opposite(netlist, quotient)?;
    let negative = signs_differ(netlist, t, a, b)?;
    netlist.choose(negative, opposite, quotient)
}

/// The quotient of two numbers of one type, rounded toward zero, and any value where the divisor is 0.
pub fn quotient(
    netlist: &mut Netlist,
    t: StreamType,
    a: Signal,
    b: Signal,
) -> Result<Signal, NoMemory>
    requires a { HasSignal netlist.old a }
    requires b { HasSignal netlist.old b }
    requires a_type { a.width ≡ width_of t }
    requires b_type { b.width ≡ width_of t }
    ensures { IfOk result (MakesWhere netlist.old netlist.new 15 (width_of t)
        (λ v. if v b.net == 0 then None else Some (reduced (width_of t) (int_div (value_of t (v a.net)) (value_of t (v b.net)))))) }
{
    if t.is_signed() {
        signed_quotient(netlist, t, a, b)
    } else {
        netlist.binary(Sign::Div, a, b)
    }
}
