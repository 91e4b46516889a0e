// The ports of a kernel.
ghost use Rattle.std.specs.Prelude.{◌≡◌, ◌<◌, ◌+◌, ◌^◌, OnErr, false};
ghost use Rattle.kernel_meaning.specs.LibraryRows as Rows;
ghost use Rattle.kernel_meaning.specs.Outcomes as Outcomes;
ghost use Rattle.kernel_rows.specs.Given.{IsDone};

use crate::done::Done;
use crate::library::stream_made;
use crate::streams::{is_bit, is_same};
use fix_arith::{StreamType, TypeError};
use kernel_calls::{Call, is_port_name};
use kernel_meaning::{EvalError, State, Value};
use mx_base::Text;
use std::alloc::Global;

// An input with this control, where it has one.
fn input_with(
    alloc: Global,
    at: u32,
    name: &Text,
    of: StreamType,
    control: Option<u32>,
    state: &mut State,
) -> Result<Done, EvalError>
    requires { state.old.made + 1 < 2 ^ 32 }
    ensures done { let call = Call.Input name.now of control in
        IsDone state.new
        (Outcomes.with_name at name.now (Outcomes.makes call of false state.old)) result }
    ensures err { OnErr result (state.new ≡ state.old) }
{
    if !is_port_name(name.as_bytes()) {
        return Err(EvalError::BadPortName(at));
    }
    let call = Call::Input(name.copy(alloc)?, of, control);
    stream_made(alloc, call, of, false, state)
}

/// `io.input(name, type)`, with a control of one bit or without.
///
/// Its errors are `NoMemory`, `WrongKind`, `TypesDiffer` of the control, and `BadPortName`.
pub fn input(alloc: Global, at: u32, values: &[Value], state: &mut State) -> Result<Done, EvalError>
    requires { state.old.made + 1 < 2 ^ 32 }
    ensures done { IsDone state.new (Rows.input at values.now state.old) result }
    ensures err { OnErr result (state.new ≡ state.old) }
{
    match values {
        [Value::Str(name), Value::Type(of)] => input_with(alloc, at, name, *of, None, state),
        [
            Value::Str(name),
            Value::Type(of),
            Value::Stream {
                node,
                of: control,
                ..
            },
        ] => {
            if !is_bit(*control) {
                return Err(EvalError::Typing(at, TypeError::TypesDiffer));
            }
            input_with(alloc, at, name, *of, Some(*node), state)
        }
        _ => Err(EvalError::WrongKind(at)),
    }
}

// An output with this control, where it has one.
fn output_with(
    alloc: Global,
    at: u32,
    name: &Text,
    value: u32,
    of: StreamType,
    control: Option<u32>,
    state: &mut State,
) -> Result<Done, EvalError>
    requires { state.old.made + 1 < 2 ^ 32 }
    ensures done { let call = Call.Output name.now value control of in
        IsDone state.new
        (Outcomes.with_name at name.now (Outcomes.ends call state.old)) result }
    ensures err { OnErr result (state.new ≡ state.old) }
{
    if !is_port_name(name.as_bytes()) {
        return Err(EvalError::BadPortName(at));
    }
    let call = Call::Output(name.copy(alloc)?, value, control, of);
    let done = Done::call(alloc, call, Value::Nothing)?;
    state.made += 1;
    Ok(done)
}

/// `io.output(name, value, type)`, with a control of one bit or without; the value has the type.
///
/// Its errors are `NoMemory`, `WrongKind`, `TypesDiffer` of the value or the control, and
/// `BadPortName`.
pub fn output(
    alloc: Global,
    at: u32,
    values: &[Value],
    state: &mut State,
) -> Result<Done, EvalError>
    requires { state.old.made + 1 < 2 ^ 32 }
    ensures done { IsDone state.new (Rows.output at values.now state.old) result }
    ensures err { OnErr result (state.new ≡ state.old) }
{
    match values {
        [
            Value::Str(name),
            Value::Stream { node, of, .. },
            Value::Type(wanted),
        ] => {
            if !is_same(*of, *wanted) {
                return Err(EvalError::Typing(at, TypeError::TypesDiffer));
            }
            output_with(alloc, at, name, *node, *of, None, state)
        }
        [
            Value::Str(name),
            Value::Stream { node, of, .. },
            Value::Type(wanted),
            Value::Stream {
                node: control,
                of: control_type,
                ..
            },
        ] => {
            if !is_same(*of, *wanted) || !is_bit(*control_type) {
                return Err(EvalError::Typing(at, TypeError::TypesDiffer));
            }
            output_with(alloc, at, name, *node, *of, Some(*control), state)
        }
        _ => Err(EvalError::WrongKind(at)),
    }
}
