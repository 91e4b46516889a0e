//! The wires of a kernel's nodes in its module: of constants, operations, feeds, outputs, parts and
//! holds, in an order in which each node comes after those whose words it reads as they are
//! computed; and the signals of the controls of its ports.
#![tactic(auto)]

mod controls;
mod node;
mod states;
mod taps;
mod timing;
mod wiring;

pub use controls::port_controls;
pub use timing::Timing;
pub use wiring::add_nodes;
