//! What an expression does before its operands are evaluated, and what methods are called with, over
//! the nodes of a class's tree.
#![tactic(auto)]

mod binding;
mod branch;
mod calls;
mod class;
mod forms;
mod kernels;
mod kinds;
mod literals;
mod methods;
mod paths;
mod plan;
mod variables;
mod words;

pub use binding::{Entered, constructor, enter, fields_ahead};
pub use branch::{Branch, branch_at, declared_by, is_absent};
pub use class::{Class, Library};
pub use forms::{Form, form_of};
pub use kernels::KernelClasses;
pub use kinds::has_kind;
pub use paths::{is_mute, mute_place};
pub use plan::plan_of;
pub use variables::variable;
pub use words::base_of;
