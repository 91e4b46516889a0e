//! Problems of times under difference constraints: what times cost, what flows are worth, and the law
//! that no flow is worth more than any legal times cost. It is the linear programming dual of a
//! minimum cost flow (Ahuja, Magnanti and Orlin, Network Flows, 1993, chapter 9); that least registers
//! of a pipeline are such a problem is in Leiserson and Saxe, Retiming Synchronous Circuitry, 1991.
//! A solver and a checker both stand on these definitions.
#![tactic(auto)]

mod costs;
mod law;
mod problem;

pub use costs::{cost, term_number};
pub use law::{best_are_cheapest, flows_bound_costs};
pub use problem::{Answer, Problem, Term};
