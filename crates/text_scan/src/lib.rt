//! What the scanners of all texts share: classes of bytes, the front of a text that is of one class, white space and comments.
#![tactic(auto)]

mod bytes;
mod gap;

pub use bytes::{
    ByteClass, Split, after, begins_name, is_blank, is_digit, is_in, is_letter, split_front,
};
pub use gap::skip_gap;
