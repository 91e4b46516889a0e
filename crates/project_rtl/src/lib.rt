//! Definitions of the design of a project: a FIFO for each stream of the host and for each link
//! between kernels, the modules of the kernels, and the top module that joins them.
//!
//! `specs/Shapes` has the ports of the top module, `specs/Blocks` and `specs/Tops` its nets,
//! `specs/Projects` the modules of the design, `specs/Words` and `specs/Times` how it runs, and
//! `specs/Designs` all that a design of a project is. `specs/Laws` states its laws.
#![tactic(auto)]
