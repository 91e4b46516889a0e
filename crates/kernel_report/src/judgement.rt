// The judgement on a part of a report.

/// The judgement on a part of a report, of which the first that stands is said. Arcs are those of the
/// kernel's problem, two for each edge; nodes past the kernel's own are the times up to which words
/// are kept.
#[derive(Clone, Copy, PartialEq, Eq)]
pub enum Judgement {
    /// The part is the kernel's, its times are legal, its flow is one, and both cost the same.
    Good,
    /// The first line that is none of the kernel's, counted from 0 at the part's first line: a name
    /// or count of another kernel, or bits that the times don't cost (0), or a time below 0 or above
    /// 2^46.
    Mismatch(u64),
    /// The first arc that the times break.
    BadTimes(u32),
    /// The first node whose balance is wrong.
    BadFlow(u32),
    /// What the times cost, and what the flow is worth.
    CostsDiffer(i128, i128),
}
