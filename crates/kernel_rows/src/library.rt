// The calls of a kernel's library that make nodes, other than operations.
ghost use Rattle.std.specs.Prelude.{◌≡◌, ◌<◌, ◌+◌, ◌^◌, OnErr, IfErr};
ghost use Rattle.kernel_meaning.specs.LibraryRows as Rows;
ghost use Rattle.kernel_meaning.specs.Outcomes as Outcomes;
ghost use Rattle.kernel_rows.specs.Given.{IsDone};

use crate::done::Done;
use crate::streams::is_bit;
use fix_arith::{StreamType, TypeError};
use kernel_calls::{Call, is_port_name};
use kernel_meaning::{EvalError, State, Value};
use std::alloc::Global;

/// A node is made by a call, and its stream is the value.
///
/// Its error is `NoMemory`.
pub fn stream_made(
    alloc: Global,
    call: Call,
    of: StreamType,
    feed: bool,
    state: &mut State,
) -> Result<Done, EvalError>
    requires { state.old.made + 1 < 2 ^ 32 }
    ensures done { IsDone state.new (Outcomes.makes call of feed state.old) result }
    ensures memory { IfErr result (λ e. e ≡ EvalError.NoMemory) }
    ensures err { OnErr result (state.new ≡ state.old) }
{
    let node = state.made;
    let done = Done::call(alloc, call, Value::Stream { node, of, feed })?;
    state.made += 1;
    Ok(done)
}

/// `type.newInstance(this)`: a feed of the type.
///
/// Its error is `WrongKind`.
pub fn new_instance(
    alloc: Global,
    at: u32,
    values: &[Value],
    state: &mut State,
) -> Result<Done, EvalError>
    requires { state.old.made + 1 < 2 ^ 32 }
    ensures done { IsDone state.new (Rows.new_instance at values.now state.old) result }
    ensures err { OnErr result (state.new ≡ state.old) }
{
    let [Value::Type(of)] = values else {
        return Err(EvalError::WrongKind(at));
    };
    stream_made(alloc, Call::Feed(*of), *of, true, state)
}

/// `io.scalarInput(name, type)`.
///
/// Its errors are `NoMemory`, `WrongKind` and `BadPortName`.
pub fn scalar_input(
    alloc: Global,
    at: u32,
    values: &[Value],
    state: &mut State,
) -> Result<Done, EvalError>
    requires { state.old.made + 1 < 2 ^ 32 }
    ensures done { IsDone state.new (Rows.scalar at values.now state.old) result }
    ensures err { OnErr result (state.new ≡ state.old) }
{
    let [Value::Str(name), Value::Type(of)] = values else {
        return Err(EvalError::WrongKind(at));
    };
    if !is_port_name(name.as_bytes()) {
        return Err(EvalError::BadPortName(at));
    }
    let call = Call::Scalar(name.copy(alloc)?, *of);
    stream_made(alloc, call, *of, false, state)
}

/// `stream.offset(value, k)`.
///
/// Its errors are `WrongKind`, and `OffsetRange` beyond 1,048,576 either way.
pub fn offset(
    alloc: Global,
    at: u32,
    values: &[Value],
    state: &mut State,
) -> Result<Done, EvalError>
    requires { state.old.made + 1 < 2 ^ 32 }
    ensures done { IsDone state.new (Rows.offset at values.now state.old) result }
    ensures err { OnErr result (state.new ≡ state.old) }
{
    let [Value::Stream { node, of, .. }, Value::Int(k)] = values else {
        return Err(EvalError::WrongKind(at));
    };
    if k.unsigned_abs() > 1_048_576 {
        return Err(EvalError::OffsetRange(at, *k));
    }
    stream_made(alloc, Call::Offset(*node, *k, *of), *of, false, state)
}

/// `Reductions.streamHold(value, store)`, whose store has one bit.
///
/// Its errors are `WrongKind`, and `TypesDiffer` of the store.
pub fn stream_hold(
    alloc: Global,
    at: u32,
    values: &[Value],
    state: &mut State,
) -> Result<Done, EvalError>
    requires { state.old.made + 1 < 2 ^ 32 }
    ensures done { IsDone state.new (Rows.hold at values.now state.old) result }
    ensures err { OnErr result (state.new ≡ state.old) }
{
    let [
        Value::Stream { node, of, .. },
        Value::Stream {
            node: store,
            of: control,
            ..
        },
    ] = values
    else {
        return Err(EvalError::WrongKind(at));
    };
    if !is_bit(*control) {
        return Err(EvalError::Typing(at, TypeError::TypesDiffer));
    }
    stream_made(alloc, Call::Hold(*node, *store, *of), *of, false, state)
}

/// `control.count.makeCounterChain()`.
///
/// Its error is `NoMemory`.
pub fn make_counter_chain(alloc: Global, state: &mut State) -> Result<Done, EvalError>
    requires { state.old.made + 1 < 2 ^ 32 }
    ensures done { IsDone state.new (Rows.make_chain state.old) result }
    ensures err { OnErr result (state.new ≡ state.old) }
{
    let done = Done::call(alloc, Call::Chain, Value::Chain(state.made))?;
    state.made += 1;
    Ok(done)
}
