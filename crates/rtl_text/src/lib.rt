//! What a Verilog text of a design is: its tokens, its productions, and the design that its tree says.
#![tactic(auto)]
