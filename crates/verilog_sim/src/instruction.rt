// One assignment, made ready for evaluation.
ghost use Rattle.std.specs.Prelude.{◌≡◌, ◌<◌, ◌≤◌, ◌-◌, ◌%◌, ◌^◌, length, if◌then◌else◌, slice_index};
ghost use Rattle.mx_bits.specs.Words.{wrapped};
ghost use Rattle.rtl_ir.specs.Value;
ghost use Rattle.verilog_sim.specs.Instructions.{IsSafe, IsStepSafe, step_value, joined, again};

use crate::memory::Memory;
use crate::values::Values;
use rtl_ir::{MemId, NetId};

/// The right side of an assignment, with the widths that it needs. The operands are nets and
/// memories by number.
#[derive(Clone, Copy, Drop)]
pub(crate) enum Step {
    Copy(NetId),
    Literal(u128),
    Not(NetId),
    Add(NetId, NetId),
    Sub(NetId, NetId),
    Mul(NetId, NetId),
    Div(NetId, NetId),
    And(NetId, NetId),
    Or(NetId, NetId),
    Xor(NetId, NetId),
    Eq(NetId, NetId),
    Lt(NetId, NetId),
    /// The nets of the high and of the low bits, and the width of the latter.
    Concat(NetId, NetId, u8),
    /// How often, the width of the net, and the net.
    Repeat(u8, u8, NetId),
    /// The net and its lowest bit that is taken.
    Part(NetId, u8),
    Choose(NetId, NetId, NetId),
    /// The memory and the net that has the address.
    Cell(MemId, NetId),
}

/// An assignment to a net of `width` bits.
#[derive(Clone, Copy, Drop)]
pub(crate) struct Instruction {
    pub(crate) target: NetId,
    pub(crate) width: u8,
    /// Whether it and the nets that it reads have at most 64 bits.
    pub(crate) narrow: bool,
    pub(crate) step: Step,
}

/// The low bits of a number. Those of at most 64 bits are taken in 64 bits.
#[tactic(auto, using(mx_bits::proofs::Reducing::reducing, crate::proofs::Halves::halving))]
pub(crate) fn reduce(number: u128, width: u8) -> u128
    requires some { 1 ≤ width }
    requires at_most { width ≤ 128 }
    ensures { result ≡ wrapped width number }
{
    if width <= 64 {
        reduce_half(low_half(number), width) as u128
    } else {
        number & (u128::MAX >> (128 - width as u32))
    }
}

/// The low 64 bits of a number.
pub(crate) fn low_half(number: u128) -> u64
    ensures { result ≡ number % 2 ^ 64 }
{
    (number & u64::MAX as u128) as u64
}

/// The low bits of a number of 64 bits.
#[tactic(auto, using(crate::proofs::Halves::halving))]
pub(crate) fn reduce_half(number: u64, width: u8) -> u64
    requires some { 1 ≤ width }
    requires at_most { width ≤ 64 }
    ensures { result ≡ number % 2 ^ width }
{
    number & (u64::MAX >> (64 - width as u32))
}

/// The value of an instruction.
pub(crate) fn value_of(instruction: Instruction, memories: &[Memory], values: &Values) -> u128
    requires safe { IsSafe (length values.now) (length memories.now) instruction }
    ensures { result ≡ step_value memories.now (λ n. slice_index values.now n) instruction.width instruction.step }
{
    wide_value(instruction.step, instruction.width, memories, values)
}

/// The value of a step for a net of so many bits.
#[tactic(auto, using(mx_bits::proofs::Reducing::reducing))]
fn wide_value(step: Step, width: u8, memories: &[Memory], values: &Values) -> u128
    requires some { 1 ≤ width }
    requires at_most { width ≤ 128 }
    requires safe { IsStepSafe (length values.now) (length memories.now) step }
    ensures { result ≡ step_value memories.now (λ n. slice_index values.now n) width step }
{
    match step {
        Step::Copy(a) => values.get(a),
        Step::Literal(word) => word,
        Step::Not(a) => reduce(!values.get(a), width),
        Step::Add(a, b) => reduce(values.get(a).wrapping_add(values.get(b)), width),
        Step::Sub(a, b) => reduce(values.get(a).wrapping_sub(values.get(b)), width),
        Step::Mul(a, b) => reduce(values.get(a).wrapping_mul(values.get(b)), width),
        Step::Div(a, b) => quotient(values.get(a), values.get(b)),
        Step::And(a, b) => values.get(a) & values.get(b),
        Step::Or(a, b) => values.get(a) | values.get(b),
        Step::Xor(a, b) => values.get(a) ^ values.get(b),
        Step::Eq(a, b) => one_if(values.get(a) == values.get(b)),
        Step::Lt(a, b) => one_if(values.get(a) < values.get(b)),
        Step::Concat(a, b, low) => values.get(a) << low | values.get(b),
        Step::Repeat(times, low, a) => repeat(times, low, values.get(a)),
        Step::Part(a, low) => reduce(values.get(a) >> low, width),
        Step::Choose(a, b, c) => {
            if values.get(a) == 1 {
                values.get(b)
            } else {
                values.get(c)
            }
        }
        Step::Cell(k, a) => memories[k.index()].read(values.get(a)),
    }
}

fn one_if(test: bool) -> u128
    ensures { result ≡ (if test then 1 else 0) }
{
    if test { 1 } else { 0 }
}

fn quotient(dividend: u128, divisor: u128) -> u128
    ensures { result ≡ Value.quotient dividend divisor }
{
    if divisor == 0 { 0 } else { dividend / divisor }
}

/// A word so many times, one after another.
fn repeat(times: u8, width: u8, word: u128) -> u128
    requires times { 1 ≤ times }
    requires width { 2 ≤ times → width < 128 }
    ensures { result ≡ again (times - 1) width word }
{
    let mut all = word;
    for _time in 1..times {
        all = all << width | word;
    }
    all
}
