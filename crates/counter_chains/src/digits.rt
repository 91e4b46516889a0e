// What a counter counts through, and why there is no such counter.

/// A counter. Its values are 0, `inc`, two times `inc` and so on up to `last`, after which it is 0
/// again; they are words of `bits` bits.
#[derive(Clone, Copy, Debug, PartialEq, Eq)]
pub struct CounterDigit {
    pub last: u128,
    pub inc: u32,
    pub bits: u8,
}

/// Why there is no such counter.
#[derive(Clone, Copy, Debug, PartialEq, Eq)]
pub enum CounterError {
    /// The number that its values are to stay below, and the bits that they may have: the number is
    /// below 1, or above two to the power of these bits.
    CounterRange(i32, u8),
    /// The number that it is to step by, which is below 1.
    IncRange(i32),
    /// The number of bits of all counters of a chain, which is above 128.
    TooWide(u32),
}
