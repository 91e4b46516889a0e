//! The compiler as one call: words, files and output in, a status out.
#![tactic(auto)]

mod begin;
mod check;
mod check_command;
mod command;
mod compile;
mod compile_command;
mod expect;
mod expect_command;
mod expect_lines;
mod files;
mod input_words;
mod linked;
mod load;
mod project;
mod project_run;
mod refusal;
mod run_file;
mod saying;
mod shown;
mod simulate_command;
mod status;
mod stop;
mod stops;
mod summary;
mod top;

pub use status::Status;
pub use top::maxjc;
