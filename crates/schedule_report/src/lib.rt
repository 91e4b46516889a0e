//! Reports on schedules: for each kernel the bits of its FIFOs, the times of its nodes, and a flow
//! that shows that no schedule needs fewer bits (the dual certificate). `specs/Reports` says what a
//! report is and its one text, `specs/Reading` which bytes are none.
#![tactic(auto)]

mod error;
mod fields;
mod law;
mod printer;
mod printing;
mod reading;
mod report;
mod stage;

pub use error::ReportError;
pub use law::texts_differ;
pub use report::{Report, ReportKernel};
