//! Counters: what one counts through, how many bits it needs, and how chains of them step.
//!
//! `specs/Digits` says what a counter is, `specs/Chains` what chains have tick by tick, and
//! `specs/Steps` what one step of them is.
#![tactic(auto)]

mod digits;
mod laws;
mod making;
mod places;
mod stepping;

pub use digits::{CounterDigit, CounterError};
pub use laws::chains_by_ticks;
pub use making::{digit, simple};
pub use places::bits_below;
pub use stepping::step;
