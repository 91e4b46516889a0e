//! What it is to derive, to begin and to be the first bad token, for every grammar; and how bytes fall into tokens.
#![tactic(auto)]

mod laws;

pub use laws::{Grammar, begins};
