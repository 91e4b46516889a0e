// What instructions of one operation read, and what they make of it.
ghost use Rattle.std.specs.Prelude.{◌≡◌, ℕ, ◌<◌, ◌≤◌, ◌%◌, ◌^◌, List, length, map, slice_index, if◌then◌else◌};
ghost use Rattle.verilog_sim.specs.declared.instruction.Step.{Step};
ghost use Rattle.verilog_sim.specs.declared.instruction.Step.TheVariants.{Copy as DoCopy, Not as DoNot, Add as DoAdd, Sub as DoSub, Mul as DoMul};
ghost use Rattle.verilog_sim.specs.declared.instruction.Step.TheVariants.{And as DoAnd, Or as DoOr, Xor as DoXor, Eq as DoEq, Lt as DoLt};
ghost use Rattle.verilog_sim.specs.declared.instruction.Step.TheVariants.{Concat as DoConcat, Part as DoPart, Choose as DoChoose, Cell as DoCell};
ghost use Rattle.verilog_sim.specs.Instructions.{IsStepSafe, step_value};
ghost use Rattle.verilog_sim.specs.Batches.{instruction_of, instructions_in};

use crate::batch::{Batch, Entry};
use crate::instruction::{low_half, reduce_half};
use crate::memory::Memory;
use rtl_ir::{MemId, NetId};

/// What an instruction reads that gives a net of at most 64 bits its value, from such nets alone.
pub(crate) trait Operation: Copy {
    /// The step of the instruction.
    ghost step: { Self → Step };

    /// The batch of these instructions.
    fn batch(entries: Vec<Entry<Self>>) -> Batch
        ensures { instructions_in result ≡ map (instruction_of step) entries.items };

    /// The value for a net of so many bits, wherever it has at most 64.
    fn value(&self, width: u8, memories: &[Memory], low: &[u64]) -> u64
        requires some { 1 ≤ width }
        requires at_most { width ≤ 64 }
        requires safe { IsStepSafe (length low.now) (length memories.now) (step self.now) }
        ensures { step_value memories.now (λ n. slice_index low.now n % 2 ^ 64) width (step self.now) < 2 ^ 64
            → result ≡ step_value memories.now (λ n. slice_index low.now n % 2 ^ 64) width (step self.now) };
}

/// The low 64 bits of the value of a net.
fn half_at(low: &[u64], net: NetId) -> u64
    requires { net < length low.now }
    ensures { result ≡ slice_index low.now net % 2 ^ 64 }
{
    low[net.index()]
}

fn one_if(test: bool) -> u64
    ensures { result ≡ (if test then 1 else 0) }
{
    test as u64
}

/// A net.
#[derive(Clone, Copy, Drop)]
pub(crate) struct Alias {
    pub(crate) net: NetId,
}

impl Operation for Alias {
    ghost step = { λ s. DoCopy s.net };

    fn batch(entries: Vec<Entry<Self>>) -> Batch
        ensures { instructions_in result ≡ map (instruction_of (λ s. DoCopy s.net)) entries.items }
    {
        Batch::Aliases(entries)
    }

    fn value(&self, _width: u8, _memories: &[Memory], low: &[u64]) -> u64 {
        half_at(low, self.net)
    }
}

/// A net whose bits are inverted.
#[derive(Clone, Copy, Drop)]
pub(crate) struct Complement {
    pub(crate) net: NetId,
}

impl Operation for Complement {
    ghost step = { λ s. DoNot s.net };

    fn batch(entries: Vec<Entry<Self>>) -> Batch
        ensures { instructions_in result ≡ map (instruction_of (λ s. DoNot s.net)) entries.items }
    {
        Batch::Complements(entries)
    }

    #[tactic(auto, using(crate::proofs::Halves::halving))]
    fn value(&self, width: u8, _memories: &[Memory], low: &[u64]) -> u64 {
        let inverted = !(half_at(low, self.net) as u128);
        reduce_half(low_half(inverted), width)
    }
}

/// Two nets that are added.
#[derive(Clone, Copy, Drop)]
pub(crate) struct Sum {
    pub(crate) left: NetId,
    pub(crate) right: NetId,
}

impl Operation for Sum {
    ghost step = { λ s. DoAdd s.left s.right };

    fn batch(entries: Vec<Entry<Self>>) -> Batch
        ensures { instructions_in result ≡ map (instruction_of (λ s. DoAdd s.left s.right)) entries.items }
    {
        Batch::Sums(entries)
    }

    #[tactic(auto, using(crate::proofs::Halves::halving))]
    fn value(&self, width: u8, _memories: &[Memory], low: &[u64]) -> u64 {
        let sum = half_at(low, self.left).wrapping_add(half_at(low, self.right));
        reduce_half(sum, width)
    }
}

/// Two nets of which the second is subtracted.
#[derive(Clone, Copy, Drop)]
pub(crate) struct Difference {
    pub(crate) left: NetId,
    pub(crate) right: NetId,
}

impl Operation for Difference {
    ghost step = { λ s. DoSub s.left s.right };

    fn batch(entries: Vec<Entry<Self>>) -> Batch
        ensures { instructions_in result ≡ map (instruction_of (λ s. DoSub s.left s.right)) entries.items }
    {
        Batch::Differences(entries)
    }

    #[tactic(auto, using(crate::proofs::Halves::halving))]
    fn value(&self, width: u8, _memories: &[Memory], low: &[u64]) -> u64 {
        let left = half_at(low, self.left) as u128;
        let difference = left.wrapping_sub(half_at(low, self.right) as u128);
        reduce_half(low_half(difference), width)
    }
}

/// Two nets that are multiplied.
#[derive(Clone, Copy, Drop)]
pub(crate) struct Product {
    pub(crate) left: NetId,
    pub(crate) right: NetId,
}

impl Operation for Product {
    ghost step = { λ s. DoMul s.left s.right };

    fn batch(entries: Vec<Entry<Self>>) -> Batch
        ensures { instructions_in result ≡ map (instruction_of (λ s. DoMul s.left s.right)) entries.items }
    {
        Batch::Products(entries)
    }

    #[tactic(auto, using(crate::proofs::Halves::halving))]
    fn value(&self, width: u8, _memories: &[Memory], low: &[u64]) -> u64 {
        let product = half_at(low, self.left).wrapping_mul(half_at(low, self.right));
        reduce_half(product, width)
    }
}

/// Two nets for the bits that are 1 in both.
#[derive(Clone, Copy, Drop)]
pub(crate) struct Conjunction {
    pub(crate) left: NetId,
    pub(crate) right: NetId,
}

impl Operation for Conjunction {
    ghost step = { λ s. DoAnd s.left s.right };

    fn batch(entries: Vec<Entry<Self>>) -> Batch
        ensures { instructions_in result ≡ map (instruction_of (λ s. DoAnd s.left s.right)) entries.items }
    {
        Batch::Conjunctions(entries)
    }

    fn value(&self, _width: u8, _memories: &[Memory], low: &[u64]) -> u64 {
        half_at(low, self.left) & half_at(low, self.right)
    }
}

/// Two nets for the bits that are 1 in either.
#[derive(Clone, Copy, Drop)]
pub(crate) struct Disjunction {
    pub(crate) left: NetId,
    pub(crate) right: NetId,
}

impl Operation for Disjunction {
    ghost step = { λ s. DoOr s.left s.right };

    fn batch(entries: Vec<Entry<Self>>) -> Batch
        ensures { instructions_in result ≡ map (instruction_of (λ s. DoOr s.left s.right)) entries.items }
    {
        Batch::Disjunctions(entries)
    }

    fn value(&self, _width: u8, _memories: &[Memory], low: &[u64]) -> u64 {
        half_at(low, self.left) | half_at(low, self.right)
    }
}

/// Two nets for the bits that differ.
#[derive(Clone, Copy, Drop)]
pub(crate) struct ExclusiveOr {
    pub(crate) left: NetId,
    pub(crate) right: NetId,
}

impl Operation for ExclusiveOr {
    ghost step = { λ s. DoXor s.left s.right };

    fn batch(entries: Vec<Entry<Self>>) -> Batch
        ensures { instructions_in result ≡ map (instruction_of (λ s. DoXor s.left s.right)) entries.items }
    {
        Batch::ExclusiveOrs(entries)
    }

    fn value(&self, _width: u8, _memories: &[Memory], low: &[u64]) -> u64 {
        half_at(low, self.left) ^ half_at(low, self.right)
    }
}

/// Two nets that are tested for being equal.
#[derive(Clone, Copy, Drop)]
pub(crate) struct Equality {
    pub(crate) left: NetId,
    pub(crate) right: NetId,
}

impl Operation for Equality {
    ghost step = { λ s. DoEq s.left s.right };

    fn batch(entries: Vec<Entry<Self>>) -> Batch
        ensures { instructions_in result ≡ map (instruction_of (λ s. DoEq s.left s.right)) entries.items }
    {
        Batch::Equalities(entries)
    }

    fn value(&self, _width: u8, _memories: &[Memory], low: &[u64]) -> u64 {
        one_if(half_at(low, self.left) == half_at(low, self.right))
    }
}

/// Two nets that are tested for being in order.
#[derive(Clone, Copy, Drop)]
pub(crate) struct Less {
    pub(crate) left: NetId,
    pub(crate) right: NetId,
}

impl Operation for Less {
    ghost step = { λ s. DoLt s.left s.right };

    fn batch(entries: Vec<Entry<Self>>) -> Batch
        ensures { instructions_in result ≡ map (instruction_of (λ s. DoLt s.left s.right)) entries.items }
    {
        Batch::Orders(entries)
    }

    fn value(&self, _width: u8, _memories: &[Memory], low: &[u64]) -> u64 {
        one_if(half_at(low, self.left) < half_at(low, self.right))
    }
}

/// The nets of the high and of the low bits, and the width of the latter.
#[derive(Clone, Copy, Drop)]
pub(crate) struct Concatenation {
    pub(crate) high: NetId,
    pub(crate) low: NetId,
    pub(crate) low_width: u8,
}

impl Operation for Concatenation {
    ghost step = { λ s. DoConcat s.high s.low s.low_width };

    fn batch(entries: Vec<Entry<Self>>) -> Batch
        ensures { instructions_in result ≡ map (instruction_of (λ s. DoConcat s.high s.low s.low_width)) entries.items }
    {
        Batch::Concatenations(entries)
    }

    #[tactic(auto, using(crate::proofs::Halves::halving))]
    fn value(&self, _width: u8, _memories: &[Memory], low: &[u64]) -> u64 {
        let high = half_at(low, self.high) as u128;
        low_half(high << self.low_width | half_at(low, self.low) as u128)
    }
}

/// A net, and its lowest bit that is taken.
#[derive(Clone, Copy, Drop)]
pub(crate) struct PartSelect {
    pub(crate) net: NetId,
    pub(crate) low_bit: u8,
}

impl Operation for PartSelect {
    ghost step = { λ s. DoPart s.net s.low_bit };

    fn batch(entries: Vec<Entry<Self>>) -> Batch
        ensures { instructions_in result ≡ map (instruction_of (λ s. DoPart s.net s.low_bit)) entries.items }
    {
        Batch::PartSelects(entries)
    }

    #[tactic(auto, using(crate::proofs::Halves::halving))]
    fn value(&self, width: u8, _memories: &[Memory], low: &[u64]) -> u64 {
        let bits = half_at(low, self.net) as u128 >> self.low_bit;
        reduce_half(low_half(bits), width)
    }
}

/// The net that chooses, and the nets that it chooses where it is 1 and where it is 0.
#[derive(Clone, Copy, Drop)]
pub(crate) struct Choice {
    pub(crate) test: NetId,
    pub(crate) one: NetId,
    pub(crate) zero: NetId,
}

impl Operation for Choice {
    ghost step = { λ s. DoChoose s.test s.one s.zero };

    fn batch(entries: Vec<Entry<Self>>) -> Batch
        ensures { instructions_in result ≡ map (instruction_of (λ s. DoChoose s.test s.one s.zero)) entries.items }
    {
        Batch::Choices(entries)
    }

    fn value(&self, _width: u8, _memories: &[Memory], low: &[u64]) -> u64 {
        let one = half_at(low, self.one);
        let zero = half_at(low, self.zero);
        if half_at(low, self.test) == 1 {
            one
        } else {
            zero
        }
    }
}

/// A memory, and the net that has the address.
#[derive(Clone, Copy, Drop)]
pub(crate) struct MemoryRead {
    pub(crate) memory: MemId,
    pub(crate) address: NetId,
}

impl Operation for MemoryRead {
    ghost step = { λ s. DoCell s.memory s.address };

    fn batch(entries: Vec<Entry<Self>>) -> Batch
        ensures { instructions_in result ≡ map (instruction_of (λ s. DoCell s.memory s.address)) entries.items }
    {
        Batch::MemoryReads(entries)
    }

    #[tactic(auto, using(crate::proofs::Halves::halving))]
    fn value(&self, _width: u8, memories: &[Memory], low: &[u64]) -> u64 {
        let address = half_at(low, self.address) as u128;
        low_half(memories[self.memory.index()].read(address))
    }
}
