//! Runs a design under a pattern of stalls, over files of words: from the words of the input files to
//! those of the output files.
#![tactic(auto)]

mod asking;
mod bench;
mod input;
mod inputs;
mod laws;
mod output;
mod outputs;
mod plan;
mod planning;
mod refusal;
mod run;
mod steady;
mod stop;

pub use laws::one_end;
pub use plan::Plan;
pub use planning::{outputs_differ, plan_of};
pub use run::simulate;
pub use stop::{Outcome, Stop};
