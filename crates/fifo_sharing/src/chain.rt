// A chain of words behind a producer.
ghost use Rattle.std.specs.Prelude.{◌≡◌, ℕ, Contains, IfSome, IfNone};
ghost use Rattle.fifo_sharing.specs.Chains.{IsChainOf};

use mx_base::List;

/// The last words of a producer, kept for its consumers: a consumer of delay `d` reads the word that
/// the producer gave `d` ticks ago.
#[derive(Debug, Drop, PartialEq, Eq)]
pub struct Chain {
    /// The node whose words they are.
    pub producer: u32,
    /// How many words are kept: the greatest delay of the producer's edges, in ticks, above 0.
    pub words: u64,
    /// The delays of the producer's edges above 0, in ticks, each once, in rising order.
    pub taps: List<u64>,
}

/// The chain for these delays of a producer, or `None` where there are none.
pub fn chain_for(producer: u32, delays: List<u64>) -> Option<Chain>
    ensures producer { IfSome result (λ chain. chain.producer ≡ producer) }
    ensures chain { IfSome result (IsChainOf (Contains delays)) }
    ensures none { IfNone result ((delay : ℕ) → Contains delays delay → ⊥) }
{
    let mut taps = delays.into_vec();
    taps.sort_unstable();
    taps.dedup();
    let words = *taps.last()?;
    Some(Chain {
        producer,
        words,
        taps: List::from_vec(taps),
    })
}
