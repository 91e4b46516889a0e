//! The latencies of operations by the width of their operands, and the table in which they are written.
#![tactic(auto)]

mod error;
mod names;
mod reading;
mod rows;
mod table;

pub use error::TableError;
pub use names::{byte_order, operation_name};
pub use table::Table;
