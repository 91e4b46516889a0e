// Operators on numbers, booleans and strings, as in Java.
ghost use Rattle.std.specs.Prelude.{◌≡◌, ◌≤◌, ◌<◌, length};
ghost use Rattle.kernel_meaning.specs.HostRows.{whole_between, flag_between, texts_between};
ghost use Rattle.kernel_meaning.specs.HostRows as Host;
ghost use Rattle.kernel_meaning.specs.declared.state.State.{State};
ghost use Rattle.kernel_rows.specs.Given.{IsGiven};

use kernel_meaning::{EvalError, Sign, Value};
use mx_base::Text;
use std::alloc::Global;

// A string has at most so many bytes.
const MOST_BYTES: usize = 64;

/// An operator between two numbers of 32 bits, which wrap, for an expression at a place.
///
/// Its errors are `DivByZero` and `WrongKind`.
pub fn numbers(sign: Sign, at: u32, x: i32, y: i32) -> Result<Value, EvalError>
    ensures { (s : State) → IsGiven s (whole_between sign at x y s) result }
{
    match sign {
        Sign::Add => Ok(Value::Int(x.wrapping_add(y))),
        Sign::Subtract => Ok(Value::Int(x.wrapping_sub(y))),
        Sign::Multiply => Ok(Value::Int(x.wrapping_mul(y))),
        Sign::Divide | Sign::Remainder if y == 0 => Err(EvalError::DivByZero(at)),
        Sign::Divide => Ok(Value::Int(x.wrapping_div(y))),
        Sign::Remainder => Ok(Value::Int(x.wrapping_rem(y))),
        Sign::And => Ok(Value::Int(x & y)),
        Sign::Or => Ok(Value::Int(x | y)),
        Sign::Xor => Ok(Value::Int(x ^ y)),
        Sign::ShiftLeft => Ok(Value::Int(x << shift(y))),
        Sign::ShiftRight => Ok(Value::Int(x >> shift(y))),
        Sign::Less => Ok(Value::Flag(x < y)),
        Sign::LessEqual => Ok(Value::Flag(x <= y)),
        Sign::Greater => Ok(Value::Flag(y < x)),
        Sign::GreaterEqual => Ok(Value::Flag(y <= x)),
        Sign::Equal => Ok(Value::Flag(x == y)),
        Sign::NotEqual => Ok(Value::Flag(x != y)),
        Sign::StreamEqual | Sign::StreamNotEqual => Err(EvalError::WrongKind(at)),
    }
}

// How many bits a number shifts by: the number modulo 32.
fn shift(y: i32) -> u32
    ensures value { result ≡ Host.shift y }
    ensures below { result < 32 }
{
    y.rem_euclid(32).unsigned_abs()
}

/// An operator between two booleans, for an expression at a place.
///
/// Its error is `WrongKind`.
pub fn booleans(sign: Sign, at: u32, a: bool, b: bool) -> Result<Value, EvalError>
    ensures { (s : State) → IsGiven s (flag_between sign at a b s) result }
{
    match sign {
        Sign::And => Ok(Value::Flag(a && b)),
        Sign::Or => Ok(Value::Flag(a || b)),
        Sign::Xor | Sign::NotEqual => Ok(Value::Flag(a != b)),
        Sign::Equal => Ok(Value::Flag(a == b)),
        _ => Err(EvalError::WrongKind(at)),
    }
}

/// An operator between two strings: `+` joins them, for an expression at a place.
///
/// Its errors are `NoMemory`, `TextTooLong` over 64 bytes, and `WrongKind`.
pub fn joined(alloc: Global, sign: Sign, at: u32, a: &[u8], b: &[u8]) -> Result<Value, EvalError>
    ensures { (s : State) → IsGiven s (texts_between sign at a.now b.now s) result }
{
    if sign != Sign::Add {
        return Err(EvalError::WrongKind(at));
    }
    let mut text = Text::from_vec(Vec::new(alloc));
    text.append(a)?;
    text.append(b)?;
    if text.len() > MOST_BYTES {
        return Err(EvalError::TextTooLong(at));
    }
    Ok(Value::Str(text))
}
