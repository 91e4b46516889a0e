//! Difference constraints: their least solution, or a simple closed walk that shows that there is none,
//! by the method of Bellman and Ford (Cormen, Leiserson, Rivest and Stein, Introduction to Algorithms,
//! section 24.4, with the signs turned: least numbers that stand at least so far apart).
#![tactic(auto)]

mod arcs;
mod check;
mod least;
mod order;
mod search;

pub use arcs::{Arc, Arcs, Cycle};
pub use check::solve_ok;
pub use least::{SolveError, solve, solve_along};
pub use search::arc_number;
