/// Why a reader of words reads no more. A line counts from 1.
#[derive(Clone, Copy, Debug, PartialEq, Eq)]
pub(crate) enum Refusal {
    /// This line isn't 1 to 32 hexadecimal digits.
    BadLine(u64),
    /// The number of this line has more bits than the words.
    WordRange(u64),
    /// A read failed, or the file isn't held.
    ReadFault,
    /// A place in the file has more than 64 bits.
    NoMemory,
}
