//! The syntax of sources: from the tokens to the tree, or the place of the first fault.
#![tactic(auto)]

mod alphabet;
mod build;
mod choices;
mod choosing;
mod class;
mod draft;
mod guards;
mod heads;
mod kind;
mod level;
mod members;
mod nodes;
mod parser;
mod project;
mod refusal;
mod source;
mod stack;
mod symbol;
mod tree;

pub use parser::{ParseError, parse_tokens};
pub use project::is_no_project;
pub use source::{SourceError, parse};
pub use tree::{Class, Node, NodeId, NodeKind, Program, SyntaxTree};
