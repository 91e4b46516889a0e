// Instructions of one operation after another.
ghost use Rattle.std.specs.Prelude.{◌≡◌, true, false, List, [], ◌∷◌, ◌++◌, map, OnOk, IfOk};
ghost use Rattle.verilog_sim.specs.Batches.{instruction_of, instructions_in, instructions_of_all, IsAddedInstruction};

use crate::instruction::{Instruction, Step};
use crate::operations::{
    Alias, Choice, Complement, Concatenation, Conjunction, Difference, Disjunction, Equality,
    ExclusiveOr, Less, MemoryRead, Operation, PartSelect, Product, Sum,
};
use mx_base::NoMemory;
use rtl_ir::NetId;
use std::alloc::Global;

/// An assignment to a net of `width` bits, at most 64.
#[derive(Clone, Copy, Drop)]
pub(crate) struct Entry<R> {
    pub(crate) target: NetId,
    pub(crate) width: u8,
    pub(crate) reads: R,
}

/// Instructions of one operation, or of any.
#[derive(Drop)]
pub(crate) enum Batch {
    General(Vec<Instruction>),
    Aliases(Vec<Entry<Alias>>),
    Complements(Vec<Entry<Complement>>),
    Sums(Vec<Entry<Sum>>),
    Differences(Vec<Entry<Difference>>),
    Products(Vec<Entry<Product>>),
    Conjunctions(Vec<Entry<Conjunction>>),
    Disjunctions(Vec<Entry<Disjunction>>),
    ExclusiveOrs(Vec<Entry<ExclusiveOr>>),
    Equalities(Vec<Entry<Equality>>),
    Orders(Vec<Entry<Less>>),
    Concatenations(Vec<Entry<Concatenation>>),
    PartSelects(Vec<Entry<PartSelect>>),
    Choices(Vec<Entry<Choice>>),
    MemoryReads(Vec<Entry<MemoryRead>>),
}

impl Instruction {
    /// Whether it is of no operation that has batches of its own.
    fn is_general(&self) -> bool
        ensures { result ≡ false → self.now.narrow ≡ true }
    {
        let steps = matches!(
            self.step,
            Step::Literal(_) | Step::Div(_, _) | Step::Repeat(_, _, _)
        );
        steps || !self.narrow
    }

    /// The instruction as one of an operation that reads this.
    fn entry<R: Copy>(&self, reads: R) -> Entry<R>
        ensures { result ≡ record { target = self.now.target; width = self.now.width; reads = reads } }
    {
        Entry {
            target: self.target,
            width: self.width,
            reads,
        }
    }
}

impl Batch {
    /// A batch of this instruction alone.
    fn of(alloc: Global, instruction: &Instruction) -> Result<Self, NoMemory>
        ensures { IfOk result (λ batch. instructions_in batch ≡ instruction.now ∷ []) }
    {
        if !instruction.narrow {
            return Ok(Batch::General(pushed(Vec::new(alloc), *instruction)?));
        }
        match instruction.step {
            Step::Copy(net) => alone(alloc, instruction, Alias { net }),
            Step::Not(net) => alone(alloc, instruction, Complement { net }),
            Step::Add(left, right) => alone(alloc, instruction, Sum { left, right }),
            Step::Sub(left, right) => alone(alloc, instruction, Difference { left, right }),
            Step::Mul(left, right) => alone(alloc, instruction, Product { left, right }),
            Step::And(left, right) => alone(alloc, instruction, Conjunction { left, right }),
            Step::Or(left, right) => alone(alloc, instruction, Disjunction { left, right }),
            Step::Xor(left, right) => alone(alloc, instruction, ExclusiveOr { left, right }),
            Step::Eq(left, right) => alone(alloc, instruction, Equality { left, right }),
            Step::Lt(left, right) => alone(alloc, instruction, Less { left, right }),
            Step::Concat(high, low, low_width) => alone(
                alloc,
                instruction,
                Concatenation {
                    high,
                    low,
                    low_width,
                },
            ),
            Step::Part(net, low_bit) => alone(alloc, instruction, PartSelect { net, low_bit }),
            Step::Choose(test, one, zero) => alone(alloc, instruction, Choice { test, one, zero }),
            Step::Cell(memory, address) => alone(
                alloc,
                instruction,
                MemoryRead { memory, address },
            ),
            Step::Literal(_) | Step::Div(_, _) | Step::Repeat(_, _, _) => {
                Ok(Batch::General(pushed(Vec::new(alloc), *instruction)?))
            }
        }
    }

    /// The batch with an instruction more, where the instruction is of its operation, else as it is.
    fn add(self, instruction: &Instruction) -> Result<(Self, bool), NoMemory>
        ensures { IfOk result (λ r. IsAddedInstruction instruction.now self r.0 r.1) }
    {
        match (self, instruction.is_general(), instruction.step) {
            (Batch::General(instructions), true, _) => {
                Ok((Batch::General(pushed(instructions, *instruction)?), true))
            }
            (Batch::Aliases(entries), false, Step::Copy(net)) => added(
                entries,
                instruction,
                Alias { net },
            ),
            (Batch::Complements(entries), false, Step::Not(net)) => added(
                entries,
                instruction,
                Complement { net },
            ),
            (Batch::Sums(entries), false, Step::Add(left, right)) => added(
                entries,
                instruction,
                Sum { left, right },
            ),
            (Batch::Differences(entries), false, Step::Sub(left, right)) => added(
                entries,
                instruction,
                Difference { left, right },
            ),
            (Batch::Products(entries), false, Step::Mul(left, right)) => added(
                entries,
                instruction,
                Product { left, right },
            ),
            (Batch::Conjunctions(entries), false, Step::And(left, right)) => added(
                entries,
                instruction,
                Conjunction { left, right },
            ),
            (Batch::Disjunctions(entries), false, Step::Or(left, right)) => added(
                entries,
                instruction,
                Disjunction { left, right },
            ),
            (Batch::ExclusiveOrs(entries), false, Step::Xor(left, right)) => added(
                entries,
                instruction,
                ExclusiveOr { left, right },
            ),
            (Batch::Equalities(entries), false, Step::Eq(left, right)) => added(
                entries,
                instruction,
                Equality { left, right },
            ),
            (Batch::Orders(entries), false, Step::Lt(left, right)) => added(
                entries,
                instruction,
                Less { left, right },
            ),
            (Batch::Concatenations(entries), false, Step::Concat(high, low, low_width)) => added(
                entries,
                instruction,
                Concatenation {
                    high,
                    low,
                    low_width,
                },
            ),
            (Batch::PartSelects(entries), false, Step::Part(net, low_bit)) => added(
                entries,
                instruction,
                PartSelect { net, low_bit },
            ),
            (Batch::Choices(entries), false, Step::Choose(test, one, zero)) => added(
                entries,
                instruction,
                Choice { test, one, zero },
            ),
            (Batch::MemoryReads(entries), false, Step::Cell(memory, address)) => added(
                entries,
                instruction,
                MemoryRead { memory, address },
            ),
            (batch, _, _) => Ok((batch, false)),
        }
    }
}

// A batch of one instruction, which reads this by an operation.
fn alone<R: Operation>(
    alloc: Global,
    instruction: &Instruction,
    reads: R,
) -> Result<Batch, NoMemory>
    requires narrow { instruction.now.narrow ≡ true }
    requires step { instruction.now.step ≡ R.step reads }
    ensures { IfOk result (λ batch. instructions_in batch ≡ instruction.now ∷ []) }
{
    let entries = pushed(Vec::new(alloc), instruction.entry(reads))?;
    Ok(R::batch(entries))
}

// The batch of these entries with an instruction more, which reads this by their operation.
fn added<R: Operation>(
    entries: Vec<Entry<R>>,
    instruction: &Instruction,
    reads: R,
) -> Result<(Batch, bool), NoMemory>
    requires narrow { instruction.now.narrow ≡ true }
    requires step { instruction.now.step ≡ R.step reads }
    ensures { (old : Batch) → instructions_in old ≡ map (instruction_of R.step) entries.items
        → IfOk result (λ r. IsAddedInstruction instruction.now old r.0 r.1) }
{
    let more = pushed(entries, instruction.entry(reads))?;
    Ok((R::batch(more), true))
}

fn pushed<T: Drop>(mut items: Vec<T>, item: T) -> Result<Vec<T>, NoMemory>
    ensures { IfOk result (λ more. more.items ≡ items.items ++ item ∷ []) }
{
    items.push(item)?;
    Ok(items)
}

/// The batches of these instructions, which keep their order.
pub(crate) fn batches_of(
    alloc: Global,
    instructions: &[Instruction],
) -> Result<Vec<Batch>, NoMemory>
    ensures { IfOk result (λ batches. instructions_of_all batches.items ≡ instructions.now) }
{
    let mut batches = Vec::new(alloc);
    let mut last = Batch::General(Vec::new(alloc));
    for instruction in instructions {
        let (batch, added) = last.add(instruction)?;
        last = if added {
            batch
        } else {
            batches.push(batch)?;
            Batch::of(alloc, instruction)?
        };
    }
    batches.push(last)?;
    Ok(batches)
}
