// The numbers of the netlist, as words.
ghost use Rattle.std.specs.Prelude.{◌-◌, ◌≤◌, ◌<◌, ◌^◌};
ghost use Rattle.link_fifo.specs.Numbers.{AreSteps, AreNumbers};

use mx_bits::Word;

/// What a counter of some width is compared with, stepped by and cleared to.
#[derive(Clone, Copy)]
pub struct Steps {
    pub zero: Word,
    pub one: Word,
    pub last: Word,
}

/// The numbers of the netlist: those of the place, which steps from 0 to the depth less 1, and of
/// the count, which steps from 0 to the depth. For the sum of both, which has one bit more than the
/// count: the depth, and the zeros that stand before the place and the count. For the low bits of
/// the sum, as many as the place has: those of the depth. And 1, as a bit.
#[derive(Clone, Copy)]
pub struct Numbers {
    pub place: Steps,
    pub count: Steps,
    pub wide_depth: Word,
    pub low_depth: Word,
    pub before_place: Word,
    pub before_count: Word,
    pub high: Word,
}

// The numbers of a counter of `bits` bits that goes up to `last`.
fn steps_to(last: u32, bits: u8) -> Steps
    requires some { 2 ≤ 2 ^ bits }
    requires narrow { bits ≤ 17 }
    requires fits { last < 2 ^ bits }
    ensures { AreSteps bits last result }
{
    Steps {
        zero: Word::new(0, bits),
        one: Word::new(1, bits),
        last: Word::new(last as u128, bits),
    }
}

/// The numbers of a FIFO of this depth, whose place has `place_bits` bits and whose count has
/// `count_bits` bits.
pub fn numbers_of(depth: u32, place_bits: u8, count_bits: u8) -> Numbers
    requires some { 2 ≤ depth }
    requires places { depth - 1 < 2 ^ place_bits }
    requires counts { depth < 2 ^ count_bits }
    requires order { place_bits ≤ count_bits }
    requires narrow { count_bits ≤ 17 }
    ensures { AreNumbers depth place_bits count_bits result }
{
    Numbers {
        place: steps_to(depth - 1, place_bits),
        count: steps_to(depth, count_bits),
        wide_depth: Word::new(depth as u128, count_bits + 1),
        low_depth: Word::new(depth as u128 % (1 << place_bits), place_bits),
        before_place: Word::new(0, count_bits + 1 - place_bits),
        before_count: Word::new(0, 1),
        high: Word::new(1, 1),
    }
}
