// The laws of chains of counters.
ghost use Rattle.std.specs.Prelude.{◌≡◌, ◌<◌, ◌≤◌, ◌^◌, ◌/◌, ◌%◌, ℕ, suc, List, length, slice_get, Some, All};
ghost use Rattle.counter_chains.specs.declared.digits.CounterDigit.{CounterDigit};
ghost use Rattle.counter_chains.specs.Digits.{IsDigit};
ghost use Rattle.counter_chains.specs.Chains.{bits_of, bits_below, part_at, chain_at};
ghost use Rattle.counter_chains.specs.Steps.{IsState, stepped};

/// What the word of a chain is, tick by tick: all digits are 0 in tick 0, each further tick is one
/// step, the word fits the bits of the digits, each part of it is a value of its digit, and the
/// digit of a place stands in its own bits. The function does nothing: its contract is the law.
pub fn chains_by_ticks()
    ensures begins { (digits : List CounterDigit) → chain_at digits 0 ≡ 0 }
    ensures steps { (digits : List CounterDigit) (t : ℕ) → All IsDigit digits
        → stepped digits (chain_at digits t) ≡ chain_at digits (suc t) }
    ensures fits { (digits : List CounterDigit) (t : ℕ) → All IsDigit digits
        → chain_at digits t < 2 ^ bits_of digits }
    ensures states { (digits : List CounterDigit) (t : ℕ) → All IsDigit digits
        → IsState digits (chain_at digits t) }
    ensures parts { (digits : List CounterDigit) (place t : ℕ) (d : CounterDigit)
        → All IsDigit digits → slice_get digits place ≡ Some d
        → chain_at digits t / 2 ^ bits_below digits place % 2 ^ d.bits ≡ part_at digits place t }
    ensures least { (d : CounterDigit) → IsDigit d → 1 ≤ d.bits }
    ensures most { (d : CounterDigit) → IsDigit d → d.bits ≤ 128 }
    ensures inside { (d : CounterDigit) → IsDigit d → d.last < 2 ^ d.bits }
{}
