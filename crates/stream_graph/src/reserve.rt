// A graph with room for the calls that a tally counted.
ghost use Rattle.std.specs.Prelude.{◌≡◌, List, [], IfOk, false};
ghost use Rattle.kernel_calls.specs.declared.call.Call.{Call};
ghost use Rattle.kernel_calls.specs.Laws.{Received, HasRoom};
ghost use Rattle.stream_graph.specs.Counts.{Counted, IsBelow, empty};

use crate::reserved::Reserved;
use crate::{Graph, Tally};
use mx_base::NoMemory;
use std::alloc::Global;

#[tactic(auto, using(crate::proofs::Rooms::reserved))]
impl Graph {
    ghost use Rattle.stream_graph.specs.Received.{received, HasSpace, Receives};

    /// A graph that has received no call, with room for just what the tally counts: it takes each
    /// of the calls that were counted, one after another, without memory. There is none where a
    /// count of the tally stands at its last value.
    pub fn reserve(alloc: Global, tally: &Tally) -> Result<Self, NoMemory>
        ensures empty { IfOk result (λ graph. received graph ≡ []) }
        ensures none { IfOk result (λ graph. graph.made ≡ 0) }
        ensures room { IfOk result (λ graph. (calls : List Call) → Received Counted empty calls tally.now → HasRoom HasSpace Receives graph calls) }
    {
        if is_full(tally) {
            return Err(NoMemory);
        }
        Ok(Graph {
            rows: Reserved::new(alloc, tally.nodes as usize + tally.connections as usize)?,
            bytes: Reserved::new(alloc, tally.bytes as usize)?,
            operands: Reserved::new(alloc, tally.operands as usize)?,
            made: 0,
        })
    }
}

// Whether a count of what takes room stands at its last value.
fn is_full(tally: &Tally) -> bool
    ensures { result ≡ false → IsBelow tally.now }
{
    tally.operands == u32::MAX || tally.bytes == u32::MAX || tally.connections == u32::MAX
}
