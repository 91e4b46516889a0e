// One step of a chain of counters.
ghost use Rattle.std.specs.Prelude.{◌≡◌, ◌<◌, ◌^◌, ℕ, suc, All, if◌then◌else◌};
ghost use Rattle.counter_chains.specs.Digits.{IsDigit};
ghost use Rattle.counter_chains.specs.Chains.{bits_of, chain_at};
ghost use Rattle.counter_chains.specs.Steps.{IsState, IsValue, next_value, stepped};

use crate::CounterDigit;
use mx_bits::Word;

/// The word of a chain one tick after this one. The first digit is the outermost one and stands in
/// the high bits; the word is as wide as all digits, and each part of it is a value of its digit.
/// The last digit steps, and each other one where all later ones begin again.
pub fn step(digits: &[CounterDigit], state: Word) -> Word
    requires digits { All IsDigit digits.now }
    requires wide { state.width ≡ bits_of digits.now }
    requires state { IsState digits.now state.bits }
    ensures width { result.width ≡ state.width }
    ensures next { result.bits ≡ stepped digits.now state.bits }
    ensures ticks { (t : ℕ) → state.bits ≡ chain_at digits.now t
        → result.bits ≡ chain_at digits.now (suc t) }
{
    let mut next: u128 = 0;
    let mut low: u8 = 0;
    let mut ended = true;
    for place in (0..digits.len()).rev() {
        let digit = digits[place];
        let value = state.part(low + (digit.bits - 1), low).bits();
        next |= step_digit(digit, value, ended) << low;
        low += digit.bits;
        ended = value == digit.last && ended;
    }
    Word::new(next, state.width())
}

// The value of a digit one tick after this one, where it steps or not.
fn step_digit(digit: CounterDigit, value: u128, steps: bool) -> u128
    requires digit { IsDigit digit }
    requires value { IsValue digit value }
    ensures next { result ≡ (if steps then next_value digit value else value) }
    ensures fits { result < 2 ^ digit.bits }
{
    if !steps {
        value
    } else if value == digit.last {
        0
    } else {
        value + digit.inc as u128
    }
}
