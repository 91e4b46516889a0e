//! What a report says of a kernel: the part that is written of its least schedule, and the judgement
//! on a part that was read.
//!
//! A part that is judged good shows by itself that its bits are the fewest (`specs/Judging`): its
//! flow is a dual certificate, and no solver is trusted.
#![tactic(auto)]

mod judgement;
mod judging;
mod laws;
mod parts;
mod times;

pub use judgement::Judgement;
pub use judging::judge;
pub use laws::shown_are_least;
pub use parts::part_of;
