// The numbers of the nets. The ports come first, and then the registers.

/// Clears the queue where it is 1.
pub const RESET: u32 = 1;
/// The word at the side that takes words.
pub const IN_DATA: u32 = 2;
/// Whether there is a word to take.
pub const IN_VALID: u32 = 3;
/// Whether there is room for it.
pub const IN_READY: u32 = 4;
/// The word at the side that gives words, which is the first one.
pub const OUT_DATA: u32 = 5;
/// Whether there is a word to give.
pub const OUT_VALID: u32 = 6;
/// Whether it is wanted.
pub const OUT_READY: u32 = 7;

/// The register of the place of the first word.
pub const PLACE: u32 = 8;
/// The register of how many words there are.
pub const COUNT: u32 = 9;
/// The memory of the words, by its number among the memories.
pub const WORDS: u32 = 0;

/// The depth, with as many bits as the count.
pub const DEPTH: u32 = 10;
/// Whether the count is the depth.
pub const FULL: u32 = 11;
/// The number 0, with as many bits as the count.
pub const NONE: u32 = 12;
/// Whether the count is 0.
pub const EMPTY: u32 = 13;

/// Whether a word is taken in this edge.
pub const TAKES: u32 = 14;
/// Whether a word is given in this edge.
pub const GIVES: u32 = 15;

/// The last place.
pub const LAST_PLACE: u32 = 16;
/// Whether the first word stands at the last place.
pub const AT_LAST: u32 = 17;
/// The number 1, with as many bits as the place.
pub const ONE_PLACE: u32 = 18;
/// The place and 1.
pub const PLACE_AFTER: u32 = 19;
/// The place 0.
pub const FIRST_PLACE: u32 = 20;
/// The next place, round the depth.
pub const PLACE_ROUND: u32 = 21;
/// The place after the edge, without a reset.
pub const PLACE_LEFT: u32 = 22;
/// The place after the edge.
pub const NEXT_PLACE: u32 = 23;

/// The number 1, with as many bits as the count.
pub const ONE_WORD: u32 = 24;
/// The count and 1.
pub const WORD_MORE: u32 = 25;
/// The count less 1.
pub const WORD_LESS: u32 = 26;
/// The count after the edge where a word is taken, without a reset.
pub const COUNT_TAKEN: u32 = 27;
/// The count after the edge where no word is taken, without a reset.
pub const COUNT_KEPT: u32 = 28;
/// The count after the edge, without a reset.
pub const COUNT_LEFT: u32 = 29;
/// The count after the edge.
pub const NEXT_COUNT: u32 = 30;

/// Always 1.
pub const ALWAYS: u32 = 31;
/// The zeros before the place that make it as wide as the sum of the place and the count.
pub const BEFORE_PLACE: u32 = 32;
/// The zero before the count that makes it as wide as the sum.
pub const BEFORE_COUNT: u32 = 33;
/// The place, as wide as the sum.
pub const WIDE_PLACE: u32 = 34;
/// The count, as wide as the sum.
pub const WIDE_COUNT: u32 = 35;
/// The place and the count together.
pub const SUM: u32 = 36;
/// The depth, as wide as the sum.
pub const WIDE_DEPTH: u32 = 37;
/// Whether the sum is below the depth.
pub const SUM_BELOW: u32 = 38;
/// The low bits of the sum, as many as the place has.
pub const SUM_LOW: u32 = 39;
/// The low bits of the depth, as many as the place has.
pub const LOW_DEPTH: u32 = 40;
/// The low bits of the sum less the depth.
pub const ROUND_LOW: u32 = 41;
/// The address at which a word is written.
pub const ADDRESS: u32 = 42;
