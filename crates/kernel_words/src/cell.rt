// What is known of the word of a node in a tick.

/// A word that isn't known yet, one that is undefined, or the bits of one.
#[derive(Clone, Copy, PartialEq, Eq)]
pub(crate) enum Cell {
    Open,
    Undefined,
    Word(u128),
}
