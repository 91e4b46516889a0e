// Operators of which an operand is a stream, casts and multiplexers.
ghost use Rattle.std.specs.Prelude.{◌≡◌, ◌<◌, ◌+◌, ◌^◌, ℤ, pos, length, OnErr, IfSome};
ghost use Rattle.std.specs.List.{list_all};
ghost use Rattle.fix_arith.specs.Types.{HasWidth};
ghost use Rattle.kernel_meaning.specs.SignRows as Signs;
ghost use Rattle.kernel_meaning.specs.StreamRows as Rows;
ghost use Rattle.kernel_rows.specs.Fit.{AreFit};
ghost use Rattle.kernel_rows.specs.Given.{IsDone};
ghost use Rattle.kernel_rows.specs.Operation.{HasCount, HasAmount, shift_of};
ghost use Rattle.kernel_rows.specs.Operation.{stream_pair, operation_pair, shifted_pair};

use crate::done::Done;
use crate::operations::{Asked, operation};
use fix_arith::StreamType;
use kernel_meaning::{EvalError, Sign, State, Value};
use mx_bits::Op;
use std::alloc::Global;

// The operation of a sign between streams, which has two operands and no amount.
fn op_of(sign: Sign) -> Option<Op>
    ensures op { result ≡ Signs.op_of sign }
    ensures count { IfSome result (λ op. HasCount op 2) }
    ensures amount { IfSome result (λ op. HasAmount op (pos 0)) }
{
    match sign {
        Sign::Add => Some(Op::Add),
        Sign::Subtract => Some(Op::Sub),
        Sign::Multiply => Some(Op::Mul),
        Sign::Divide => Some(Op::Div),
        Sign::And => Some(Op::And),
        Sign::Or => Some(Op::Or),
        Sign::Xor => Some(Op::Xor),
        Sign::StreamEqual => Some(Op::Eq),
        Sign::StreamNotEqual => Some(Op::Ne),
        Sign::Less => Some(Op::Lt),
        Sign::LessEqual => Some(Op::Le),
        Sign::Greater => Some(Op::Gt),
        Sign::GreaterEqual => Some(Op::Ge),
        _ => None,
    }
}

// Whether a value can be an operand: a stream or a number.
pub fn is_operand(value: &Value) -> bool
    ensures { result ≡ Rows.is_operand value.now }
{
    matches!(
        value,
        Value::Stream { .. } | Value::Int(_) | Value::Literal { .. }
    )
}

pub fn are_operands(values: &[Value]) -> bool
    ensures { result ≡ list_all Rows.is_operand values.now }
{
    values.iter().all(|value| is_operand(value))
}

// The type of the first stream.
pub fn first_stream(values: &[Value]) -> Option<StreamType>
    requires { AreFit values.now }
    ensures first { result ≡ Rows.first_stream values.now }
    ensures width { IfSome result HasWidth }
{
    for value in values {
        if let Value::Stream { of, .. } = value {
            return Some(*of);
        }
    }
    None
}

/// A sign between two values of which one is a stream.
///
/// Its errors are `NoMemory`, `WrongKind`, and those of the types.
#[tactic(auto, using(crate::proofs::SignPairs::pair_of_shift, crate::proofs::SignPairs::pair_of_operation))]
pub fn stream_between(
    alloc: Global,
    at: u32,
    sign: Sign,
    values: &[Value],
    state: &mut State,
) -> Result<Done, EvalError>
    requires made { state.old.made + 3 < 2 ^ 32 }
    requires fit { AreFit values.now }
    ensures done { IsDone state.new (stream_pair sign at values.now state.old) result }
    ensures err { OnErr result (state.new ≡ state.old) }
{
    match shift_of(sign) {
        Some(op) => shifted(alloc, at, op, values, state),
        None => operation_of_sign(alloc, at, sign, values, state),
    }
}

// The operation of a sign that shifts.
fn shift_of(sign: Sign) -> Option<Op>
    ensures op { result ≡ shift_of sign }
    ensures count { IfSome result (λ op. HasCount op 1) }
    ensures shifts { IfSome result (λ op. (amount : ℤ) → HasAmount op amount) }
{
    match sign {
        Sign::ShiftLeft => Some(Op::Shl),
        Sign::ShiftRight => Some(Op::Shr),
        _ => None,
    }
}

// A stream is shifted by a number.
fn shifted(
    alloc: Global,
    at: u32,
    op: Op,
    values: &[Value],
    state: &mut State,
) -> Result<Done, EvalError>
    requires made { state.old.made + 3 < 2 ^ 32 }
    requires fit { AreFit values.now }
    requires count { HasCount op 1 }
    requires shifts { (amount : ℤ) → HasAmount op amount }
    ensures done { IsDone state.new (shifted_pair op at values.now state.old) result }
    ensures err { OnErr result (state.new ≡ state.old) }
{
    let [Value::Stream { of, .. }, Value::Int(amount)] = values else {
        return Err(EvalError::WrongKind(at));
    };
    let asked = Asked {
        op,
        amount: *amount,
        of: *of,
    };
    operation(alloc, at, asked, &[], &values[..1], state)
}

// A sign that is no shift, between two values.
fn operation_of_sign(
    alloc: Global,
    at: u32,
    sign: Sign,
    values: &[Value],
    state: &mut State,
) -> Result<Done, EvalError>
    requires made { state.old.made + 3 < 2 ^ 32 }
    requires fit { AreFit values.now }
    ensures done { IsDone state.new (operation_pair sign at values.now state.old) result }
    ensures err { OnErr result (state.new ≡ state.old) }
{
    let [first, second] = values else {
        return Err(EvalError::WrongKind(at));
    };
    if !is_operand(first) || !is_operand(second) {
        return Err(EvalError::WrongKind(at));
    }
    let (Some(op), Some(of)) = (op_of(sign), first_stream(values)) else {
        return Err(EvalError::WrongKind(at));
    };
    let asked = Asked { op, amount: 0, of };
    operation(alloc, at, asked, &[], values, state)
}

/// `-` or `~` before a stream.
///
/// Its errors are `NoMemory`, `WrongKind`, and those of the types.
pub fn prefixed(
    alloc: Global,
    at: u32,
    op: Op,
    values: &[Value],
    state: &mut State,
) -> Result<Done, EvalError>
    requires made { state.old.made + 2 < 2 ^ 32 }
    requires fit { AreFit values.now }
    requires count { HasCount op 1 }
    requires amount { HasAmount op (pos 0) }
    ensures done { IsDone state.new (Signs.prefixed at op values.now state.old) result }
    ensures err { OnErr result (state.new ≡ state.old) }
{
    let [Value::Stream { of, .. }] = values else {
        return Err(EvalError::WrongKind(at));
    };
    let asked = Asked {
        op,
        amount: 0,
        of: *of,
    };
    operation(alloc, at, asked, &[], values, state)
}

// A cast to fewer bits behind the point rounds.
fn cast_op(from: StreamType, to: StreamType) -> Op
    ensures op { result ≡ Rows.cast_op from to }
    ensures count { HasCount result 2 }
    ensures amount { HasAmount result (pos 0) }
{
    if to.frac() < from.frac() {
        Op::Round
    } else {
        Op::Cast
    }
}

/// `stream.cast(type)`.
///
/// Its errors are `NoMemory`, `WrongKind`, and those of the types.
pub fn cast(alloc: Global, at: u32, values: &[Value], state: &mut State) -> Result<Done, EvalError>
    requires made { state.old.made + 2 < 2 ^ 32 }
    requires fit { AreFit values.now }
    ensures done { IsDone state.new (Rows.cast at values.now state.old) result }
    ensures err { OnErr result (state.new ≡ state.old) }
{
    let [Value::Stream { of, .. }, Value::Type(to)] = values else {
        return Err(EvalError::WrongKind(at));
    };
    let asked = Asked {
        op: cast_op(*of, *to),
        amount: 0,
        of: *of,
    };
    operation(alloc, at, asked, &[*to], &values[..1], state)
}

/// `control.mux(selector, options)`: the selector is a stream, and the options are streams and
/// numbers, among them a stream.
///
/// Its errors are `NoMemory`, `WrongKind`, and those of the types.
pub fn mux(alloc: Global, at: u32, values: &[Value], state: &mut State) -> Result<Done, EvalError>
    requires made { state.old.made + length values.now + 1 < 2 ^ 32 }
    requires fit { AreFit values.now }
    ensures done { IsDone state.new (Rows.mux at values.now state.old) result }
    ensures err { OnErr result (state.new ≡ state.old) }
{
    let Some((Value::Stream { .. }, options)) = values.split_first() else {
        return Err(EvalError::WrongKind(at));
    };
    let Some(of) = first_stream(options) else {
        return Err(EvalError::WrongKind(at));
    };
    if !are_operands(options) {
        return Err(EvalError::WrongKind(at));
    }
    let asked = Asked {
        op: Op::Mux,
        amount: 0,
        of,
    };
    operation(alloc, at, asked, &[], values, state)
}
