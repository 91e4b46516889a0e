//! The tokens of sources: from the bytes to the tokens with their places, or the place of the first fault; and the first token
//! that is out of profile, or that stands too deep or too far.
#![tactic(auto)]

mod excess;
mod integer;
mod lexeme;
mod number;
mod profile;
mod scanner;
mod sign;
mod token;
mod tokens;
mod word;

pub use excess::first_excess;
pub use integer::{digit_value, hex_digits, without_suffix};
pub use profile::first_outside;
pub use scanner::{ScanError, scan};
pub use sign::Sign;
pub use token::{Placed, Token};
pub use tokens::Tokens;
pub use word::{is_among, is_foreign_word, is_word};
