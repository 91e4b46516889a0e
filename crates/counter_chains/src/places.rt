// Where the word of a counter stands in the word of its chain.
ghost use Rattle.std.specs.Prelude.{◌≡◌, ◌<◌, ◌≤◌, length};
ghost use Rattle.counter_chains.specs.Chains.{bits_of, bits_below};

use crate::digits::CounterDigit;

/// How many bits of a chain's word stand below the counter of this place.
pub fn bits_below(digits: &[CounterDigit], place: u32) -> u8
    requires place { place < length digits.now }
    requires few { bits_of digits.now ≤ 128 }
    ensures { result ≡ bits_below digits.now place }
{
    let later = &digits[place as usize + 1..];
    let mut bits: u8 = 0;
    for digit in later {
        bits += digit.bits;
    }
    bits
}
