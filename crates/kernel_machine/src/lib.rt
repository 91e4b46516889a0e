//! The machine of a building run: what the run of a constructor builds, step by step, with stacks of
//! its own. Here stand its types and its steps, but for variables that are set.
#![tactic(auto)]

mod assignments;
mod beginning;
mod branches;
mod calls;
mod choices;
mod counting;
mod executing;
mod expressions;
mod fields;
mod initials;
mod machine;
mod managers;
mod parts;
mod repeats;
mod spots;
mod statements;
mod targets;
mod task;

pub use machine::{Event, Frame, Machine, Now};
pub use task::{Condition, Loop, Part, Purpose, Task};
