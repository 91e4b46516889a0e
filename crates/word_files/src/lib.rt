//! The files of a simulation: the run file, and the words of each stream.
#![tactic(auto)]

mod bytes;
mod digits;
mod error;
mod fit;
mod hex;
mod lines;
mod parts;
mod reader;
mod reading;
mod refusal;
mod run_file;
mod scalars;
mod writer;

pub use error::{RunFileError, WordError};
pub use reader::WordReader;
pub use run_file::RunFile;
pub use scalars::scalar_names;
pub use writer::WordWriter;
