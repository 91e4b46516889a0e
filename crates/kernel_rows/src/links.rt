// The calls of a manager, other than the adding of kernels.
ghost use Rattle.std.specs.Prelude.{◌≡◌, OnErr};
ghost use Rattle.kernel_meaning.specs.ManagerRows as Rows;
ghost use Rattle.kernel_meaning.specs.declared.state.State.{State};
ghost use Rattle.kernel_rows.specs.Given.{IsGiven};

use crate::copying::copy_end;
use kernel_calls::is_port_name;
use kernel_meaning::{End, EvalError, Join, Side, State, Value};
use std::alloc::Global;

/// `k.getInput(name)`: an input of a kernel, which stands left of `<==`.
///
/// Its errors are `NoMemory`, `WrongKind` and `BadPortName`.
pub fn kernel_input(alloc: Global, at: u32, values: &[Value]) -> Result<Value, EvalError>
    ensures { (s : State) → IsGiven s (Rows.kernel_input at values.now s) result }
{
    let [Value::Block(kernel), Value::Str(name)] = values else {
        return Err(EvalError::WrongKind(at));
    };
    if !is_port_name(name.as_bytes()) {
        return Err(EvalError::BadPortName(at));
    }
    Ok(Value::Link {
        end: End::Kernel(*kernel, name.copy(alloc)?),
        side: Side::Left,
    })
}

/// `k.getOutput(name)`: an output of a kernel, which stands right of `<==`.
///
/// Its errors are `NoMemory`, `WrongKind` and `BadPortName`.
pub fn kernel_output(alloc: Global, at: u32, values: &[Value]) -> Result<Value, EvalError>
    ensures { (s : State) → IsGiven s (Rows.kernel_output at values.now s) result }
{
    let [Value::Block(kernel), Value::Str(name)] = values else {
        return Err(EvalError::WrongKind(at));
    };
    if !is_port_name(name.as_bytes()) {
        return Err(EvalError::BadPortName(at));
    }
    Ok(Value::Link {
        end: End::Kernel(*kernel, name.copy(alloc)?),
        side: Side::Right,
    })
}

/// `addStreamFromCPU(name)`: a stream from the CPU, which stands right of `<==`.
///
/// Its errors are `NoMemory`, `WrongKind` and `BadPortName`.
pub fn stream_from_cpu(
    alloc: Global,
    at: u32,
    values: &[Value],
    state: &mut State,
) -> Result<Value, EvalError>
    ensures done { IsGiven state.new (Rows.stream_from_cpu at values.now state.old) result }
    ensures err { OnErr result (state.new ≡ state.old) }
{
    let [Value::Str(name)] = values else {
        return Err(EvalError::WrongKind(at));
    };
    if !is_port_name(name.as_bytes()) {
        return Err(EvalError::BadPortName(at));
    }
    let end = End::Cpu(name.copy(alloc)?);
    state.plan.from_cpu.push(name.copy(alloc)?)?;
    Ok(Value::Link {
        end,
        side: Side::Right,
    })
}

/// `addStreamToCPU(name)`: a stream to the CPU, which stands left of `<==`.
///
/// Its errors are `NoMemory`, `WrongKind` and `BadPortName`.
pub fn stream_to_cpu(
    alloc: Global,
    at: u32,
    values: &[Value],
    state: &mut State,
) -> Result<Value, EvalError>
    ensures done { IsGiven state.new (Rows.stream_to_cpu at values.now state.old) result }
    ensures err { OnErr result (state.new ≡ state.old) }
{
    let [Value::Str(name)] = values else {
        return Err(EvalError::WrongKind(at));
    };
    if !is_port_name(name.as_bytes()) {
        return Err(EvalError::BadPortName(at));
    }
    let end = End::Cpu(name.copy(alloc)?);
    state.plan.to_cpu.push(name.copy(alloc)?)?;
    Ok(Value::Link {
        end,
        side: Side::Left,
    })
}

/// Two ends are joined.
///
/// Its error is `NoMemory`.
pub fn ends_joined(
    alloc: Global,
    left: &End,
    right: &End,
    state: &mut State,
) -> Result<Value, EvalError>
    ensures done { IsGiven state.new (Rows.joined left.now right.now state.old) result }
    ensures err { OnErr result (state.new ≡ state.old) }
{
    let join = Join {
        left: copy_end(alloc, left)?,
        right: copy_end(alloc, right)?,
    };
    state.plan.joins.push(join)?;
    Ok(Value::Nothing)
}
