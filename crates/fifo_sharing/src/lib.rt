//! The chains of words that the consumers of each producer share: the shift registers of a schedule, as
//! many words as the greatest delay of a producer's edges, tapped at each delay. Registers are shared so
//! in Leiserson and Saxe, Retiming Synchronous Circuitry, Algorithmica 6, 1991.
#![tactic(auto)]

mod chain;
mod delays;
mod law;
mod sharing;

pub use chain::Chain;
pub use law::chains_are_one;
pub use sharing::share;
