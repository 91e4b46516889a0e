//! Lists of words in files, one word a line.
//!
//! `specs/Read` says which words a file has, and `specs/Written` which lines words have.
#![tactic(auto)]

mod reading;
mod writing;

pub use reading::read_words;
pub use writing::write_words;
