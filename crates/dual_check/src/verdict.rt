// What a check says.

/// What a check says of an answer. Arcs and nodes are told by their numbers, from 0.
#[derive(Clone, Copy, PartialEq, Eq)]
pub enum Verdict {
    /// The times are legal, the flow is one, and the times cost what it is worth.
    Good,
    /// The first arc that the times break.
    BadTimes(u32),
    /// The times are legal; the first node that sends another surplus than its own.
    BadFlow(u32),
    /// The times are legal and the flow is one, but they cost the first number, and it is worth the
    /// second one.
    CostsDiffer(i128, i128),
}
