// The type of an operation's result.
ghost use Rattle.std.specs.Prelude.{◌≡◌, ◌+◌, ◌≤◌, ◌<◌, ◌^◌, ◌⊎◌, ◌↔◌, IsTrue, IfOk, IfErr, All, length, ◌<ℤ◌, pos};
ghost use Rattle.fix_arith.specs.Types.{width_of, HasWidth};
ghost use Rattle.fix_arith.specs.Typing.{HasOperands, takes, can_cast, IsFor, is_selector, is_fix};
ghost use Rattle.fix_arith.specs.Typing.{is_shift, alike, AllSame, type_of, first, IsFirstFault};
ghost use Rattle.fix_arith.specs.Typing.{HasType};

use crate::{StreamType, TypeError};
use mx_bits::Op;

// The options of a multiplexer are at most these.
const MOST_OPTIONS: usize = 64;

/// The type of the result of an operation on operands of these types, with this number of bits for a
/// shift.
///
/// There is one type per operand, for a `Mux` the selector's and then any number of options. For
/// `Cast` and `Round` the types are the operand's and the given one, which is the answer. The error
/// is the fault with the least number of those that stand.
pub fn result_type(op: Op, types: &[StreamType], amount: i32) -> Result<StreamType, TypeError>
    requires widths { All HasWidth types.now }
    requires operands { HasOperands op types.now }
    ensures ok { IfOk result (HasType op types.now amount) }
    ensures err { IfErr result (IsFirstFault op types.now amount) }
{
    if !are_same(operands_alike(op, types)) {
        return Err(TypeError::TypesDiffer);
    }
    if !is_defined(op, types) {
        return Err(TypeError::NotForType(op));
    }
    if op == Op::Mul && is_wide(types[0]) {
        return Err(TypeError::MulTooWide);
    }
    if is_shift(op) && !(0..=127).contains(&amount) {
        return Err(TypeError::ShiftRange(amount));
    }
    if op == Op::Mux && !can_number(types[0], types.len() - 1) {
        return Err(TypeError::MuxCount(types.len() - 1));
    }
    Ok(given_type(op, types))
}

// The operands that must have one type.
fn operands_alike(op: Op, types: &[StreamType]) -> &[StreamType]
    requires { HasOperands op types.now }
    ensures { result.now ≡ alike op types.now }
{
    match op {
        Op::Mux => &types[1..],
        Op::Cast | Op::Round => &[],
        _ => types,
    }
}

// Whether all of these are one type.
fn are_same(types: &[StreamType]) -> bool
    ensures { IsTrue result ↔ AllSame types.now }
{
    types.iter().all(|t| *t == types[0])
}

// Whether the operation is defined on these types, where they are alike.
fn is_defined(op: Op, types: &[StreamType]) -> bool
    requires widths { All HasWidth types.now }
    requires operands { HasOperands op types.now }
    ensures { IsTrue result ↔ IsFor op types.now }
{
    match op {
        Op::Mux => matches!(types[0], StreamType::UInt(_) | StreamType::Bool),
        Op::Cast | Op::Round => is_castable(types[0], types[1]),
        _ => types.iter().all(|t| is_operand(op, *t)),
    }
}

// Whether words of this type can be cast to the other one.
fn is_castable(from: StreamType, to: StreamType) -> bool
    requires { HasWidth from }
    ensures { result ≡ can_cast from to }
{
    to != StreamType::Bool || from.width() == 1
}

// Whether the operation takes operands of this type.
fn is_operand(op: Op, t: StreamType) -> bool
    ensures { result ≡ takes op t }
{
    match op {
        Op::Add | Op::Sub | Op::Mul | Op::Lt | Op::Le | Op::Gt | Op::Ge => t != StreamType::Bool,
        Op::Div | Op::Shl | Op::Shr => matches!(t, StreamType::UInt(_) | StreamType::Int(_)),
        Op::Neg => t.is_signed(),
        Op::And | Op::Or | Op::Xor | Op::Not => !matches!(t, StreamType::Fix { .. }),
        _ => true,
    }
}

// Whether products of this type would have numerators of more than 128 bits.
fn is_wide(t: StreamType) -> bool
    requires { HasWidth t }
    ensures { IsTrue result ↔ (IsTrue (is_fix t) × (64 < width_of t)) }
{
    matches!(t, StreamType::Fix { .. }) && 64 < t.width()
}

fn is_shift(op: Op) -> bool
    ensures { result ≡ is_shift op }
{
    matches!(op, Op::Shl | Op::Shr)
}

// Whether a multiplexer may have this number of options under a selector of this type.
#[tactic(auto, using(crate::proofs::Powers::pow_at_least))]
fn can_number(selector: StreamType, options: usize) -> bool
    requires { HasWidth selector }
    ensures { IsTrue result ↔ ((2 ≤ options) × (options ≤ MOST_OPTIONS) × (options ≤ 2 ^ width_of selector)) }
{
    let width = selector.width();
    (2..=MOST_OPTIONS).contains(&options) && (6 <= width || options <= 1 << width)
}

// The type of the result where no fault stands.
fn given_type(op: Op, types: &[StreamType]) -> StreamType
    requires operands { HasOperands op types.now }
    requires options { op ≡ Op.Mux → 2 ≤ length types.now }
    ensures { result ≡ type_of op types.now }
{
    match op {
        Op::Eq | Op::Ne | Op::Lt | Op::Le | Op::Gt | Op::Ge => StreamType::Bool,
        Op::Mux | Op::Cast | Op::Round => types[1],
        _ => types[0],
    }
}
