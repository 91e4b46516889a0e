//! What the run of a constructor builds, a kernel's or a manager's: the definitions, and the laws
//! that each call of a kernel may come after those before it, that a plan can be carried out, and
//! that no run is refused for want of memory.
#![tactic(auto)]

mod bindings;
mod error;
mod laws;
mod plan;
mod row;
mod stack;
mod state;
mod value;

pub use bindings::Bindings;
pub use error::EvalError;
pub use laws::{
    arithmetic_agrees, lawful, plans_are_sound, plans_never_want_memory, runs_never_want_memory,
};
pub use plan::{Arg, End, Join, Made, Plan, Side};
pub use row::{Row, Sign};
pub use stack::Stack;
pub use state::{Binding, Digit, State};
pub use value::{Base, Declared, Spot, Value};
