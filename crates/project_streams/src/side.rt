// How a link can fail in the ideal run.

/// A link of a project in the run in which nothing waits: `Dry` where its consumer is to read a word
/// that wasn't written yet, `Full` where its producer is to write a word and there is no room.
#[derive(Clone, Copy, Debug, PartialEq, Eq)]
pub enum Side {
    Dry,
    Full,
}
