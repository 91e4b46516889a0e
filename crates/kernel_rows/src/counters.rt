// Counters, and the digits of chains of counters.
ghost use Rattle.std.specs.Prelude.{◌≡◌, ◌<◌, ◌≤◌, ◌+◌, ◌^◌, ℕ, OnErr};
ghost use Rattle.kernel_meaning.specs.LibraryRows as Rows;
ghost use Rattle.kernel_rows.specs.Given.{IsDone};

use crate::done::Done;
use crate::library::stream_made;
use counter_chains::{CounterError, digit, simple};
use fix_arith::StreamType;
use kernel_calls::Call;
use kernel_meaning::{Digit, EvalError, State, Value};
use std::alloc::Global;

/// `control.count.simpleCounter(bits)`, or with a bound `max` of its values.
///
/// Its errors are `NoMemory`, `WrongKind`, `TypeRange` of the bits, and `Counter`.
pub fn simple_counter(
    alloc: Global,
    at: u32,
    values: &[Value],
    state: &mut State,
) -> Result<Done, EvalError>
    requires { state.old.made + 1 < 2 ^ 32 }
    ensures done { IsDone state.new (Rows.counter at values.now state.old) result }
    ensures err { OnErr result (state.new ≡ state.old) }
{
    match values {
        [Value::Int(bits)] => counter_of(alloc, at, *bits, None, state),
        [Value::Int(bits), Value::Int(max)] => counter_of(alloc, at, *bits, Some(*max), state),
        _ => Err(EvalError::WrongKind(at)),
    }
}

fn counter_of(
    alloc: Global,
    at: u32,
    bits: i32,
    max: Option<i32>,
    state: &mut State,
) -> Result<Done, EvalError>
    requires { state.old.made + 1 < 2 ^ 32 }
    ensures done { IsDone state.new (Rows.counter_of at bits max state.old) result }
    ensures err { OnErr result (state.new ≡ state.old) }
{
    if !(1..=128).contains(&bits) {
        return Err(EvalError::TypeRange(at));
    }
    match simple(bits as u8, max) {
        Ok(digit) => stream_made(
            alloc,
            Call::Counter(digit),
            StreamType::UInt(digit.bits),
            false,
            state,
        ),
        Err(error) => Err(EvalError::Counter(at, error)),
    }
}

/// `chain.addCounter(max, inc)`: the next digit of a chain, whose digits have at most 128 bits.
///
/// Its errors are `NoMemory`, `WrongKind`, and `Counter`, also of the bits of all digits.
#[tactic(auto, using(crate::proofs::DigitBits::bits_reversed))]
pub fn add_counter(
    alloc: Global,
    at: u32,
    values: &[Value],
    state: &mut State,
) -> Result<Done, EvalError>
    requires made { state.old.made + 1 < 2 ^ 32 }
    requires bits { (chain : ℕ) → Rows.bits_of state.old.digits chain ≤ 128 }
    ensures done { IsDone state.new (Rows.add_counter at values.now state.old) result }
    ensures err { OnErr result (state.new ≡ state.old) }
{
    let [Value::Chain(chain), Value::Int(max), Value::Int(inc)] = values else {
        return Err(EvalError::WrongKind(at));
    };
    let counter = match digit(*max, *inc) {
        Ok(counter) => counter,
        Err(error) => return Err(EvalError::Counter(at, error)),
    };
    let bits = bits_of(state.digits.as_slice(), *chain) + u32::from(counter.bits);
    if bits > 128 {
        return Err(EvalError::Counter(at, CounterError::TooWide(bits)));
    }
    let value = Value::Stream {
        node: state.made,
        of: StreamType::UInt(counter.bits),
        feed: false,
    };
    let done = Done::call(alloc, Call::ChainDigit(*chain, counter), value)?;
    state.digits.push(Digit {
        chain: *chain,
        bits: counter.bits,
    })?;
    state.made += 1;
    Ok(done)
}

// The bits of the digits of a chain.
fn bits_of(digits: &[Digit], chain: u32) -> u32
    requires { Rows.bits_of digits.now chain ≤ 128 }
    ensures { result ≡ Rows.bits_of digits.now chain }
{
    let mut bits: u32 = 0;
    for digit in digits {
        if digit.chain == chain {
            bits += u32::from(digit.bits);
        }
    }
    bits
}
