//! A law of runs under lists of events: there is one, whatever is offered, accepted and held.
#![tactic(auto)]

mod laws;

pub use laws::one_driven_run;
