// What the equations give a node in a tick.
ghost use Rattle.std.specs.Prelude.{◌≡◌, ◌≢◌, ◌≤◌, ◌<◌, ◌^◌, ℕ, suc, true, length, slice_index, pos, ◌+ℤ◌, ◌<ℤ◌, IfSome, IfNone, Some};
ghost use Rattle.std.specs.Option.{option_map};
ghost use Rattle.counter_chains.specs.Chains.{chain_at, part_at};
ghost use Rattle.mx_bits.specs.declared.op.Op.TheVariants.{Mux};
ghost use Rattle.stream_graph.specs.declared.node.Kind.TheVariants as K;
ghost use Rattle.stream_graph.specs.LookUps.{kind_at, operand_at, operands_at, width_at, digits_at};
ghost use Rattle.stream_equations.specs.Equations.{enabled, count_before, right_side};
ghost use Rattle.kernel_types.specs.Types.{counts, is_like};
ghost use Rattle.kernel_words.specs.Streams.{given_of, values_of, IsGiven, AreWords};
ghost use Rattle.kernel_words.specs.Sides.{IsMux, IsReady, hold_at, mux_at, applied_at, operated_at};

use crate::nodes::{digits_of, kind_of, operand, operand_count, type_of, width_of};
use crate::ports::is_enabled;
use crate::{KernelRun, Streams};
use counter_chains::{CounterDigit, bits_below, chains_by_ticks, step};
use fix_arith::{RoundMode, apply};
use mx_bits::{Op, Word};
use stream_graph::{Kernel, Kind, NodeId};

/// What the equations give a node in a tick, where what it hangs on is known, and of an input how
/// many words were taken before.
pub(crate) fn word_at(
    kernel: &Kernel,
    run: &KernelRun,
    streams: &Streams,
    taken: u64,
    node: NodeId,
    tick: u64,
) -> Option<u128>
    requires given { IsGiven kernel.now.nodes run.now }
    requires node { node < length kernel.now.nodes }
    requires tick { tick < 2 ^ 24 }
    requires words { AreWords kernel.now.nodes (values_of streams.now) }
    requires ready { IsReady kernel.now.nodes (given_of run.now) (values_of streams.now) node tick taken }
    ensures right { result ≡ right_side kernel.now.nodes (given_of run.now) (values_of streams.now)
        node tick (kind_at kernel.now.nodes node) }
    ensures small { IfSome result (λ x. x < 2 ^ width_at kernel.now.nodes node) }
{
    chains_by_ticks();
    match kind_of(kernel, node) {
        Kind::Input => input_word(kernel, run, streams, taken, node, tick),
        Kind::Output => first_word(kernel, streams, node, tick),
        Kind::Scalar => Some(scalar_word(run, node)),
        Kind::Constant(word) => Some(word.bits()),
        Kind::Operation(op, mode, amount) => {
            operation_word(kernel, streams, node, tick, op, mode, amount)
        }
        Kind::Offset(ticks) => offset_word(kernel, streams, node, tick, ticks),
        Kind::Feed => first_word(kernel, streams, node, tick),
        Kind::Hold => hold_word(kernel, streams, node, tick),
        Kind::Counter => counted_word(kernel, streams, node, tick),
        Kind::Chain => counted_word(kernel, streams, node, tick),
        Kind::Part(number) => part_word(kernel, streams, node, tick, number),
    }
}

/// The word of a scalar.
pub(crate) fn scalar_word(run: &KernelRun, node: NodeId) -> u128
    requires { node < length run.now.scalars }
    ensures { result ≡ slice_index run.now.scalars node }
{
    *run.scalars.at(node.index())
}

// The word of the first operand.
fn first_word(kernel: &Kernel, streams: &Streams, node: NodeId, tick: u64) -> Option<u128>
    requires node { node < length kernel.now.nodes }
    requires kind { is_like (kind_at kernel.now.nodes node) ≡ true }
    ensures { result ≡ values_of streams.now (operand_at kernel.now.nodes node 0) (pos tick) }
{
    streams.word(operand(kernel, node, 0), tick)
}

// The word of an input: the next one of its source where the input is enabled.
fn input_word(
    kernel: &Kernel,
    run: &KernelRun,
    streams: &Streams,
    taken: u64,
    node: NodeId,
    tick: u64,
) -> Option<u128>
    requires given { IsGiven kernel.now.nodes run.now }
    requires node { node < length kernel.now.nodes }
    requires taken { taken ≡ count_before (enabled kernel.now.nodes (values_of streams.now) node) tick }
    ensures right { result ≡ right_side kernel.now.nodes (given_of run.now) (values_of streams.now)
        node tick K.Input }
    ensures small { IfSome result (λ x. x < 2 ^ width_at kernel.now.nodes node) }
{
    if !is_enabled(kernel, streams, node, tick) {
        return None;
    }
    let words = run.sources.at(node.index());
    match words.get(taken as usize) {
        Some(word) => *word,
        None => None,
    }
}

/// The tick so many ticks ahead, or `None` where that is below 0.
pub(crate) fn tick_ahead(tick: u64, ticks: i32) -> Option<u64>
    requires { tick < 2 ^ 24 }
    ensures ahead { IfSome result (λ at. pos at ≡ (pos tick +ℤ ticks)) }
    ensures before { IfNone result ((pos tick +ℤ ticks) <ℤ pos 0) }
{
    let at = tick as i64 + i64::from(ticks);
    if at < 0 {
        return None;
    }
    Some(at as u64)
}

// The word of an offset: that of its operand so many ticks ahead.
fn offset_word(
    kernel: &Kernel,
    streams: &Streams,
    node: NodeId,
    tick: u64,
    ticks: i32,
) -> Option<u128>
    requires node { node < length kernel.now.nodes }
    requires kind { kind_at kernel.now.nodes node ≡ K.Offset ticks }
    requires tick { tick < 2 ^ 24 }
    ensures { result ≡ values_of streams.now (operand_at kernel.now.nodes node 0)
        (pos tick +ℤ ticks) }
{
    let at = tick_ahead(tick, ticks)?;
    streams.word(operand(kernel, node, 0), at)
}

// The word of a hold: its value's where its store is 1, and else the one that it had.
fn hold_word(kernel: &Kernel, streams: &Streams, node: NodeId, tick: u64) -> Option<u128>
    requires node { node < length kernel.now.nodes }
    requires kind { kind_at kernel.now.nodes node ≡ K.Hold }
    requires before { (s : ℕ) → tick ≡ suc s → values_of streams.now node (pos s)
        ≡ hold_at kernel.now.nodes (values_of streams.now) node s }
    ensures { result ≡ hold_at kernel.now.nodes (values_of streams.now) node tick }
{
    if is_enabled(kernel, streams, node, tick) {
        return streams.word(operand(kernel, node, 0), tick);
    }
    if tick == 0 {
        return Some(0);
    }
    streams.word(node, tick - 1)
}

// The word of a counter or a chain: one step after the one that it had.
fn counted_word(kernel: &Kernel, streams: &Streams, node: NodeId, tick: u64) -> Option<u128>
    requires node { node < length kernel.now.nodes }
    requires kind { counts (kind_at kernel.now.nodes node) ≡ true }
    requires before { (s : ℕ) → tick ≡ suc s → values_of streams.now node (pos s)
        ≡ Some (chain_at (digits_at kernel.now.nodes node) s) }
    ensures { result ≡ Some (chain_at (digits_at kernel.now.nodes node) tick) }
{
    chains_by_ticks();
    if tick == 0 {
        return Some(0);
    }
    let bits = streams.word(node, tick - 1)?;
    let state = Word::new(bits, width_of(kernel, node));
    Some(step(digits_of(kernel, node), state).bits())
}

// The word of a part: the bits of its counter in the word of its chain.
fn part_word(
    kernel: &Kernel,
    streams: &Streams,
    node: NodeId,
    tick: u64,
    number: u32,
) -> Option<u128>
    requires node { node < length kernel.now.nodes }
    requires kind { kind_at kernel.now.nodes node ≡ K.Part number }
    requires chain { values_of streams.now (operand_at kernel.now.nodes node 0) (pos tick)
        ≡ Some (chain_at (digits_at kernel.now.nodes (operand_at kernel.now.nodes node 0)) tick) }
    ensures { result ≡ Some (part_at (digits_at kernel.now.nodes (operand_at kernel.now.nodes node 0))
        number tick) }
{
    chains_by_ticks();
    let chain = operand(kernel, node, 0);
    let bits = streams.word(chain, tick)?;
    let low = bits_below(digits_of(kernel, chain), number);
    let high = low + (width_of(kernel, node) - 1);
    Some(
        Word::new(bits, width_of(kernel, chain))
            .part(high, low)
            .bits(),
    )
}

// The word of an operation.
fn operation_word(
    kernel: &Kernel,
    streams: &Streams,
    node: NodeId,
    tick: u64,
    op: Op,
    mode: RoundMode,
    amount: u8,
) -> Option<u128>
    requires node { node < length kernel.now.nodes }
    requires kind { kind_at kernel.now.nodes node ≡ K.Operation op mode amount }
    requires words { AreWords kernel.now.nodes (values_of streams.now) }
    ensures right { result ≡ operated_at kernel.now.nodes (values_of streams.now) node tick
        op mode amount }
    ensures small { IfSome result (λ x. x < 2 ^ width_at kernel.now.nodes node) }
{
    match op {
        Op::Mux => chosen_word(kernel, streams, node, tick),
        _ => applied_word(kernel, streams, node, tick, op, mode, amount),
    }
}

// The word of a multiplexer: that of the option that its selector numbers.
fn chosen_word(kernel: &Kernel, streams: &Streams, node: NodeId, tick: u64) -> Option<u128>
    requires node { node < length kernel.now.nodes }
    requires kind { IsMux (kind_at kernel.now.nodes node) }
    requires words { AreWords kernel.now.nodes (values_of streams.now) }
    ensures right { result ≡ mux_at kernel.now.nodes (values_of streams.now) node tick }
    ensures small { IfSome result (λ x. x < 2 ^ width_at kernel.now.nodes node) }
{
    let selector = streams.word(operand(kernel, node, 0), tick)?;
    if selector >= (operand_count(kernel, node) - 1) as u128 {
        return None;
    }
    streams.word(operand(kernel, node, selector as usize + 1), tick)
}

// The word of an operand, with its width.
fn operand_word(kernel: &Kernel, streams: &Streams, node: NodeId, tick: u64) -> Option<Word>
    requires node { node < length kernel.now.nodes }
    requires words { AreWords kernel.now.nodes (values_of streams.now) }
    ensures bits { option_map (λ w. w.bits) result ≡ values_of streams.now node (pos tick) }
    ensures width { IfSome result (λ w. w.width ≡ width_at kernel.now.nodes node) }
{
    let bits = streams.word(node, tick)?;
    Some(Word::new(bits, width_of(kernel, node)))
}

// The word of another operation, on the words of its one or two operands.
fn applied_word(
    kernel: &Kernel,
    streams: &Streams,
    node: NodeId,
    tick: u64,
    op: Op,
    mode: RoundMode,
    amount: u8,
) -> Option<u128>
    requires node { node < length kernel.now.nodes }
    requires kind { kind_at kernel.now.nodes node ≡ K.Operation op mode amount }
    requires other { op ≢ Mux }
    requires words { AreWords kernel.now.nodes (values_of streams.now) }
    ensures right { result ≡ applied_at kernel.now.nodes (values_of streams.now) node tick op mode amount }
    ensures small { IfSome result (λ x. x < 2 ^ width_at kernel.now.nodes node) }
{
    if operand_count(kernel, node) < 2 {
        unary_word(kernel, streams, node, tick, op, mode, amount)
    } else {
        binary_word(kernel, streams, node, tick, op, mode, amount)
    }
}

// The word of an operation on one operand.
fn unary_word(
    kernel: &Kernel,
    streams: &Streams,
    node: NodeId,
    tick: u64,
    op: Op,
    mode: RoundMode,
    amount: u8,
) -> Option<u128>
    requires node { node < length kernel.now.nodes }
    requires kind { kind_at kernel.now.nodes node ≡ K.Operation op mode amount }
    requires one { length (operands_at kernel.now.nodes node) ≡ 1 }
    requires words { AreWords kernel.now.nodes (values_of streams.now) }
    ensures right { result ≡ applied_at kernel.now.nodes (values_of streams.now) node tick op mode amount }
    ensures small { IfSome result (λ x. x < 2 ^ width_at kernel.now.nodes node) }
{
    let out = type_of(kernel, node);
    let one = operand(kernel, node, 0);
    let first = type_of(kernel, one);
    let a = operand_word(kernel, streams, one, tick)?;
    let word = apply(op, mode, &[first], &[a], amount, out)?;
    Some(word.bits())
}

// The word of an operation on two operands.
fn binary_word(
    kernel: &Kernel,
    streams: &Streams,
    node: NodeId,
    tick: u64,
    op: Op,
    mode: RoundMode,
    amount: u8,
) -> Option<u128>
    requires node { node < length kernel.now.nodes }
    requires kind { kind_at kernel.now.nodes node ≡ K.Operation op mode amount }
    requires two { length (operands_at kernel.now.nodes node) ≡ 2 }
    requires words { AreWords kernel.now.nodes (values_of streams.now) }
    ensures right { result ≡ applied_at kernel.now.nodes (values_of streams.now) node tick op mode amount }
    ensures small { IfSome result (λ x. x < 2 ^ width_at kernel.now.nodes node) }
{
    let out = type_of(kernel, node);
    let one = operand(kernel, node, 0);
    let other = operand(kernel, node, 1);
    let first = type_of(kernel, one);
    let second = type_of(kernel, other);
    let a = operand_word(kernel, streams, one, tick)?;
    let b = operand_word(kernel, streams, other, tick)?;
    let word = apply(op, mode, &[first, second], &[a, b], amount, out)?;
    Some(word.bits())
}
