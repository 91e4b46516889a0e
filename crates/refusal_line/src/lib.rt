//! The line that a refusal says. Each crate's error says its own by it.
#![tactic(auto)]

mod line;

pub use line::{Value, refusal_line};
