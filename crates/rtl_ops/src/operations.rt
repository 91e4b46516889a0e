// The wires of an operation.
ghost use Rattle.std.specs.Prelude.{◌≡◌, ◌+◌, ◌*◌, ◌≤◌, ◌<◌, ◌^◌, [], ◌∷◌, true, All, IsTrue, length, map, IfOk};
ghost use Rattle.fix_arith.specs.Types.{width_of, HasWidth};
ghost use Rattle.fix_arith.specs.Typing.{is_fix, type_of};
ghost use Rattle.fix_arith.specs.Table.{applied, row_of, GivesType};
ghost use Rattle.rtl_ir.specs.Value.{width_of as net_width_of};
ghost use Rattle.rtl_ops.specs.Operands.{takes_two, HasNets};
ghost use Rattle.rtl_ops.specs.Costs.{most_wires};
ghost use Rattle.rtl_build.specs.Signals.{HasSignal, MakesWhere};
ghost use Rattle.rtl_ops.specs.Fragments.{IsFragment};

use crate::casts::cast;
use crate::choice::choice;
use crate::compare::{at_most, equal, less, unequal};
use crate::products::product;
use crate::quotients::{opposite, quotient};
use crate::rounding::shifted_left;
use crate::widths::floor;
use fix_arith::{RoundMode, StreamType};
use mx_base::NoMemory;
use mx_bits::Op;
use rtl_build::{Netlist, Signal};
use rtl_ir::{NetId, Sign};

// The product of two signals of one type.
fn multiplied(
    netlist: &mut Netlist,
    mode: RoundMode,
    t: StreamType,
    a: Signal,
    b: Signal,
) -> Result<Signal, NoMemory>
    requires a { HasSignal netlist.old a }
    requires b { HasSignal netlist.old b }
    requires a_type { a.width ≡ width_of t }
    requires b_type { b.width ≡ width_of t }
    requires narrow { IsTrue (is_fix t) → width_of t ≤ 64 }
    ensures { IfOk result (MakesWhere netlist.old netlist.new 30 (width_of t)
        (λ v. row_of Op.Mul mode t 0 (v a.net) (v b.net))) }
{
    match t {
        StreamType::Fix { frac, .. } => product(netlist, mode, t, a, b, frac),
        _ => netlist.binary(Sign::Mul, a, b),
    }
}

// An operation of two operands of one type.
fn on_two(
    netlist: &mut Netlist,
    op: Op,
    mode: RoundMode,
    t: StreamType,
    a: Signal,
    b: Signal,
) -> Result<Signal, NoMemory>
    requires two { takes_two op ≡ true }
    requires a { HasSignal netlist.old a }
    requires b { HasSignal netlist.old b }
    requires a_type { a.width ≡ width_of t }
    requires b_type { b.width ≡ width_of t }
    requires narrow { op ≡ Op.Mul → IsTrue (is_fix t) → width_of t ≤ 64 }
    ensures { IfOk result (MakesWhere netlist.old netlist.new 30 (width_of (type_of op (t ∷ [])))
        (λ v. row_of op mode t 0 (v a.net) (v b.net))) }
{
    match op {
        Op::Add => netlist.binary(Sign::Add, a, b),
        Op::Sub => netlist.binary(Sign::Sub, a, b),
        Op::Mul => multiplied(netlist, mode, t, a, b),
        Op::Div => quotient(netlist, t, a, b),
        Op::And => netlist.binary(Sign::And, a, b),
        Op::Or => netlist.binary(Sign::Or, a, b),
        Op::Xor => netlist.binary(Sign::Xor, a, b),
        Op::Eq => equal(netlist, t, a, b),
        Op::Ne => unequal(netlist, t, a, b),
        Op::Lt => less(netlist, t, a, b),
        Op::Le => at_most(netlist, t, a, b),
        Op::Gt => less(netlist, t, b, a),
        Op::Ge => at_most(netlist, t, b, a),
        _ => unreachable!("the operation has other operands"),
    }
}

// An operation, as the signal of its result.
fn operation(
    netlist: &mut Netlist,
    op: Op,
    mode: RoundMode,
    types: &[StreamType],
    args: &[NetId],
    amount: u8,
    out: StreamType,
) -> Result<Signal, NoMemory>
    requires types { All HasWidth types.now }
    requires out { HasWidth out }
    requires gives { GivesType op types.now amount out }
    requires nets { HasNets netlist.old types.now args.now }
    ensures { IfOk result (MakesWhere netlist.old netlist.new (most_wires op types.now) (width_of out)
        (λ v. applied op mode types.now (map v args.now) amount out)) }
{
    let t = types[0];
    let width = t.width();
    let a = Signal::new(args[0], width);
    match op {
        Op::Mux => choice(netlist, a, &args[1..], out.width()),
        Op::Cast | Op::Round => cast(netlist, mode, t, a, out),
        Op::Neg => opposite(netlist, a),
        Op::Not => netlist.not(a),
        Op::Shl => shifted_left(netlist, t, a, amount, width),
        Op::Shr => floor(netlist, t, a, amount, width),
        _ => {
            let b = Signal::new(args[1], width);
            on_two(netlist, op, mode, t, a, b)
        }
    }
}

/// Adds the wires of an operation to a module, and answers the signal of its result.
///
/// `types` and `args` have one type and one net for each operand, of the type's width, and `out` is the
/// type of the result: of a `Cast` or `Round` the one that is cast to. `amount` is the number of bits of
/// a shift. No net of `args` is that of an output port.
///
/// At most `most_wires` are added, 15 for each operand, each with its assignment, after the nets and
/// assignments that stand. A wire is named `w` and then its number among the nets, and none reads the
/// net of an output port. In every family of values of the module the net that is answered has the
/// word that `fix_arith::apply` gives for the words of the operands, or any word where that is none.
///
/// The only error is `NoMemory`, also where the module has 2^32 nets. After it the module isn't to be
/// used.
pub fn fragment(
    netlist: &mut Netlist,
    op: Op,
    mode: RoundMode,
    types: &[StreamType],
    args: &[NetId],
    amount: u8,
    out: StreamType,
) -> Result<Signal, NoMemory>
    requires types { All HasWidth types.now }
    requires out { HasWidth out }
    requires gives { GivesType op types.now amount out }
    requires nets { HasNets netlist.old types.now args.now }
    ensures { IfOk result (IsFragment netlist.old netlist.new op mode types.now args.now amount out) }
{
    operation(netlist, op, mode, types, args, amount, out)
}
