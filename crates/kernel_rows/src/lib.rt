//! What is done with the values of operands: rows of the tables of operators and of the library, as
//! one function, and the plans of the library's calls.
#![tactic(auto)]

mod arrays;
mod assigning;
mod between;
mod choosing;
mod connecting;
mod constants;
mod copying;
mod counters;
mod done;
mod filling;
mod host;
mod kernels;
mod library;
mod library_plans;
mod links;
mod literals;
mod method_plans;
mod new_arrays;
mod operands;
mod operations;
mod operators;
mod plan;
mod ports;
mod prefixes;
mod rounding;
mod rows;
mod signs;
mod streams;
mod type_plans;
mod types;

pub use assigning::{combined, stepped};
pub use copying::{copy_end, copy_value};
pub use done::Done;
pub use kernels::kernel_added;
pub use library_plans::library_plan;
pub use method_plans::{block_method_plan, manager_plan, stream_method_plan};
pub use plan::{OperandPlan, reads_if};
pub use rows::row_of;
pub use signs::sign_of;
pub use type_plans::type_plan;
