// Which ports stall in an edge.
ghost use Rattle.std.specs.Prelude.{◌≡◌, ◌<◌, ◌≤◌, ◌^◌, ℕ, not, false, length, slice_index_or};
ghost use Rattle.stall_source.specs.Stalls.{IsDecided, IsFreeAtZero};

use stall_source::Pattern;

/// Asks the pattern which ports stall in an edge.
pub(crate) fn ask<G: Fn(u64, u64, u32) -> bool>(
    stalls: &Pattern<G>,
    pick: u64,
    edge: u64,
    stalled: &mut [bool],
)
    requires callable { G.IsAlwaysCallable stalls.now.test }
    requires decided { IsDecided (G.post stalls.now.test) }
    requires free { IsFreeAtZero (G.post stalls.now.test) }
    requires ports { length stalled.old ≤ 2 ^ 32 }
    ensures { (port : ℕ) → port < length stalled.old → G.post stalls.now.test pick edge port (slice_index_or stalled.new port false) }
{
    for port in 0..stalled.len() {
        stalled[port] = stalls.stalls(pick, edge, port as u32);
    }
}

/// An output accepts where it doesn't stall.
pub(crate) fn accept_all(stalled: &[bool], accepts: &mut [bool])
    requires { length accepts.old ≤ length stalled.now }
    ensures { (k : ℕ) → k < length accepts.old → slice_index_or accepts.new k false ≡ not (slice_index_or stalled.now k false) }
{
    for k in 0..accepts.len() {
        accepts[k] = !stalled[k];
    }
}
