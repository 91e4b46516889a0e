//! The syntax of the Verilog subset: from the bytes of a text to its tokens and its tree, or the place of its first fault.
#![tactic(auto)]

mod cursor;
mod expr;
mod items;
mod keyword;
mod mark;
mod modules;
mod number;
mod ports;
mod scanner;
mod token;
mod tree;
mod updates;

pub use mark::Mark;
pub use modules::{ParseError, parse};
pub use scanner::{ScanError, scan};
pub use token::{Placed, Token};
pub use tree::{Connection, ExprTree, ItemTree, ModuleTree, PortTree, UpdateTree};
