//! The types of streams, and the arithmetic of the operations on their words: exact whole numbers,
//! then rounding, then reduction modulo two to the power of the width.
#![tactic(auto)]

mod casting;
mod integer;
mod literals;
mod number;
mod round;
mod table;
mod types;
mod typing;

pub use casting::cast;
pub use literals::literal;
pub use number::Number;
pub use table::apply;
pub use types::{RoundMode, StreamType, TypeError};
pub use typing::result_type;
