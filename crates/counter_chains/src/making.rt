// Counters from the numbers that a source gives.
ghost use Rattle.std.specs.Prelude.{◌≡◌, ◌≤◌, ◌<◌, ◌+◌, ◌^◌, suc, pos, ◌<ℤ◌, IfOk, IfSome, IfNone};
ghost use Rattle.counter_chains.specs.Digits.{digit_of, simple_of, least_bits, CountsBelow, IsLeastBits};

use crate::{CounterDigit, CounterError};

/// A counter of a chain, whose values are the multiples of `inc` from 0 on that are below `max`, in
/// as few bits as hold `max - 1`, and at least one. `CounterRange` with 31 bits exactly where `max`
/// is below 1, else `IncRange` exactly where `inc` is.
pub fn digit(max: i32, inc: i32) -> Result<CounterDigit, CounterError>
    ensures answer { result ≡ digit_of max inc }
    ensures values { IfOk result (λ d. CountsBelow max inc d) }
{
    let Some(greatest) = one_less(max) else {
        return Err(CounterError::CounterRange(max, 31));
    };
    let Some(less) = one_less(inc) else {
        return Err(CounterError::IncRange(inc));
    };
    let inc = less + 1;
    Ok(CounterDigit {
        last: (greatest / inc * inc) as u128,
        inc,
        bits: bits_for(greatest),
    })
}

/// A counter by itself, of 1 to 128 bits, which steps by 1: through all numbers of so many bits, or
/// through those below `max`. `CounterRange` exactly where `max` is below 1 or above two to the power
/// of `bits`.
pub fn simple(bits: u8, max: Option<i32>) -> Result<CounterDigit, CounterError>
    requires some { 1 ≤ bits }
    requires at_most { bits ≤ 128 }
    ensures { result ≡ simple_of bits max }
{
    let all = u128::MAX >> (128 - bits as u32);
    let Some(max) = max else {
        return Ok(CounterDigit {
            last: all,
            inc: 1,
            bits,
        });
    };
    let Some(last) = one_less(max) else {
        return Err(CounterError::CounterRange(max, bits));
    };
    let last = last as u128;
    if last > all {
        return Err(CounterError::CounterRange(max, bits));
    }
    Ok(CounterDigit { last, inc: 1, bits })
}

// One less than a number above 0.
fn one_less(n: i32) -> Option<u32>
    ensures some { IfSome result (λ less. pos (suc less) ≡ n) }
    ensures at_most { IfSome result (λ less. less + 1 < 2 ^ 31) }
    ensures none { IfNone result (n <ℤ pos 1) }
{
    if n < 1 {
        return None;
    }
    Some((n - 1) as u32)
}

// The bits that a number needs, and at least one.
fn bits_for(greatest: u32) -> u8
    ensures answer { result ≡ least_bits greatest }
    ensures least { IsLeastBits greatest result }
{
    match greatest {
        0 => 1,
        _ => (32 - greatest.leading_zeros()) as u8,
    }
}
