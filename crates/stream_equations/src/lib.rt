//! Definitions of what a kernel computes: the stream equations, which give each node a word or none
//! in each tick of a run, and the words of the kernel's ports.
//!
//! `Equations` has the equations, `Words` the words of ports and which runs are guarded. The words of
//! counters by tick stand in `counter_chains`.
#![tactic(auto)]
