// What is given to an edge at an input, and what is seen of a stream in it.

/// What stands at a host input in an edge: whether it is valid, and its word of the port's width.
#[derive(Clone, Copy, PartialEq, Eq)]
pub struct Offer {
    pub valid: bool,
    pub word: u128,
}

/// What happened at a host stream in an edge: whether its word moved, which it does where valid and
/// ready are both 1, and the word at its data port.
#[derive(Clone, Copy, PartialEq, Eq)]
pub struct Event {
    pub moved: bool,
    pub word: u128,
}
