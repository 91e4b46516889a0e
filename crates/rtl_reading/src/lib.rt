//! Definitions of how a Verilog text is read: the names that it uses, each declared before it, and the
//! design that it says with its nets numbered in the order of their declarations.
//!
//! `Uses` has the names that a text uses and the first that isn't declared; `Reads` the design that
//! the bytes are a text of, with its nets in the order of the text.
#![tactic(auto)]
