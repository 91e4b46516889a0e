// The calls that give types of streams.
ghost use Rattle.std.specs.Prelude.{◌≡◌};
ghost use Rattle.fix_arith.specs.declared.types.StreamType.TheVariants.{UInt, Int};
ghost use Rattle.kernel_meaning.specs.TypeRows as Rows;
ghost use Rattle.kernel_meaning.specs.declared.state.State.{State};
ghost use Rattle.kernel_rows.specs.Given.{IsGiven};

use fix_arith::StreamType;
use kernel_meaning::{EvalError, Value};

/// `dfeUInt`: the type of whole numbers of 1 to 128 bits.
///
/// Its errors are `WrongKind` and `TypeRange`.
pub fn uint_type(at: u32, values: &[Value]) -> Result<Value, EvalError>
    ensures { (s : State) → IsGiven s (Rows.width_type at UInt values.now s) result }
{
    let [Value::Int(bits)] = values else {
        return Err(EvalError::WrongKind(at));
    };
    match *bits {
        bits @ 1..=128 => Ok(Value::Type(StreamType::UInt(bits as u8))),
        _ => Err(EvalError::TypeRange(at)),
    }
}

/// `dfeInt`: the type of whole numbers of 1 to 128 bits in two's complement.
///
/// Its errors are `WrongKind` and `TypeRange`.
pub fn int_type(at: u32, values: &[Value]) -> Result<Value, EvalError>
    ensures { (s : State) → IsGiven s (Rows.width_type at Int values.now s) result }
{
    let [Value::Int(bits)] = values else {
        return Err(EvalError::WrongKind(at));
    };
    match *bits {
        bits @ 1..=128 => Ok(Value::Type(StreamType::Int(bits as u8))),
        _ => Err(EvalError::TypeRange(at)),
    }
}

/// `dfeFix`: the type of numbers with so many bits before and behind the point, 1 to 128 together.
///
/// Its errors are `WrongKind` and `TypeRange`.
pub fn fix_type(at: u32, signed: bool, values: &[Value]) -> Result<Value, EvalError>
    ensures { (s : State) → IsGiven s (Rows.fix_type at signed values.now s) result }
{
    let [Value::Int(whole), Value::Int(frac)] = values else {
        return Err(EvalError::WrongKind(at));
    };
    let (Ok(whole), Ok(frac)) = (u8::try_from(*whole), u8::try_from(*frac)) else {
        return Err(EvalError::TypeRange(at));
    };
    if !(1..=128).contains(&(u16::from(whole) + u16::from(frac))) {
        return Err(EvalError::TypeRange(at));
    }
    Ok(Value::Type(StreamType::Fix {
        whole,
        frac,
        signed,
    }))
}
