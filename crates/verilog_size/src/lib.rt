//! How large the Verilog text of a design is at most.
#![tactic(auto)]

mod laws;

pub use laws::text_sizes;
