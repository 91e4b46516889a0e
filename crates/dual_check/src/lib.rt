//! A check of answers to problems of times: the dual certificate of times, a flow that is worth what
//! they cost, shows that no legal times cost less (weak duality of linear programs; Ahuja, Magnanti
//! and Orlin, Network Flows, 1993, chapter 9). Who checks an answer so needs to trust no solver.
#![tactic(auto)]

mod balance;
mod checking;
mod value;
mod verdict;

pub use balance::first_unbalanced;
pub use checking::check;
pub use verdict::Verdict;
