// The values that instructions of one operation give to nets of at most 64 bits.
ghost use Rattle.std.specs.Prelude.{◌≡◌, ℕ, List, length, map, All};
ghost use Rattle.verilog_sim.specs.Instructions.{IsSafe};
ghost use Rattle.verilog_sim.specs.Batches.{instruction_of, Advances};
ghost use Rattle.verilog_sim.specs.Halves.{words};

use crate::batch::Entry;
use crate::memory::Memory;
use crate::operations::Operation;

/// Gives each target of the instructions of one operation its value, in their order, where `low` has the low
/// 64 bits of all nets.
pub(crate) fn settle_entries<R: Operation>(
    entries: &[Entry<R>],
    memories: &[Memory],
    low: &mut [u64],
)
    requires safe { All (IsSafe (length low.old) (length memories.now)) (map (instruction_of R.step) entries.now) }
    // whatever the high bits are
    ensures { (high : List ℕ) → length low.old ≡ length high
        → Advances (map (instruction_of R.step) entries.now) memories.now (words low.old high) (words low.new high) }
{
    for entry in entries {
        low[entry.target.index()] = entry.reads.value(entry.width, memories, low);
    }
}
