// The values of all nets in one edge.
ghost use Rattle.std.specs.Prelude.{◌≡◌, List, length, All};
ghost use Rattle.rtl_ir.specs.declared.design.Module.{Module};
ghost use Rattle.rtl_ir.specs.declared.design.Assign.{Assign};
ghost use Rattle.verilog_sim.specs.Instructions.{IsSafe};
ghost use Rattle.verilog_sim.specs.Compiled.{AreInstructionsOf};
ghost use Rattle.verilog_sim.specs.Batches.{instructions_in, instructions_of_all, Advances};
ghost use Rattle.verilog_sim.specs.Settled.{IsInOrder, AreWords, Settles};

use crate::batch::Batch;
use crate::instruction::{Instruction, value_of};
use crate::memory::Memory;
use crate::values::Values;

/// Gives each target of the instructions of these batches its value, in their order.
pub(crate) fn settle(batches: &[Batch], memories: &[Memory], values: &mut Values)
    requires safe { All (IsSafe (length values.old) (length memories.now)) (instructions_of_all batches.now) }
    // the assignments, in this order, of each module whose instructions these are
    ensures { (m : Module) (assigns : List Assign) → AreInstructionsOf m assigns (instructions_of_all batches.now) → IsInOrder m assigns
        → AreWords m values.old memories.now → Settles m assigns memories.now values.old values.new }
{
    for batch in batches {
        settle_batch(batch, memories, values);
    }
}

fn settle_batch(batch: &Batch, memories: &[Memory], values: &mut Values)
    requires safe { All (IsSafe (length values.old) (length memories.now)) (instructions_in batch.now) }
    ensures advances { Advances (instructions_in batch.now) memories.now values.old values.new }
    ensures size { length values.new ≡ length values.old }
{
    match batch {
        Batch::General(instructions) => settle_instructions(
            instructions.as_slice(),
            memories,
            values,
        ),
        Batch::Aliases(entries) => values.settle(entries.as_slice(), memories),
        Batch::Complements(entries) => values.settle(entries.as_slice(), memories),
        Batch::Sums(entries) => values.settle(entries.as_slice(), memories),
        Batch::Differences(entries) => values.settle(entries.as_slice(), memories),
        Batch::Products(entries) => values.settle(entries.as_slice(), memories),
        Batch::Conjunctions(entries) => values.settle(entries.as_slice(), memories),
        Batch::Disjunctions(entries) => values.settle(entries.as_slice(), memories),
        Batch::ExclusiveOrs(entries) => values.settle(entries.as_slice(), memories),
        Batch::Equalities(entries) => values.settle(entries.as_slice(), memories),
        Batch::Orders(entries) => values.settle(entries.as_slice(), memories),
        Batch::Concatenations(entries) => values.settle(entries.as_slice(), memories),
        Batch::PartSelects(entries) => values.settle(entries.as_slice(), memories),
        Batch::Choices(entries) => values.settle(entries.as_slice(), memories),
        Batch::MemoryReads(entries) => values.settle(entries.as_slice(), memories),
    }
}

/// Gives each target of these instructions its value, in their order.
fn settle_instructions(instructions: &[Instruction], memories: &[Memory], values: &mut Values)
    requires safe { All (IsSafe (length values.old) (length memories.now)) instructions.now }
    ensures advances { Advances instructions.now memories.now values.old values.new }
    ensures size { length values.new ≡ length values.old }
{
    for instruction in instructions {
        let value = value_of(*instruction, memories, values);
        values.set(instruction.target, value);
    }
}
