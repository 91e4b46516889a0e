//! FIFOs as modules of a netlist.
//!
//! A FIFO takes words at one side and gives them, first in first out, at the other. Its words stand
//! in a memory, which is a ring: a register has the place of the first word, and another one how
//! many words there are. A word that comes is written behind the last one.
//!
//! The module is known net by net (`specs/Netlist`), so that a caller sees not only which words it
//! gives but also that no output of it hangs on an input of the same edge.
#![tactic(auto)]

mod assigns;
mod building;
mod exprs;
mod frame;
mod nets;
mod numbers;
mod updates;
mod wires;

pub use building::fifo;
pub use wires::add_wires;
