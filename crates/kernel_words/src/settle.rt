// The words of all nodes in all ticks.
ghost use Rattle.std.specs.Prelude.{◌≡◌, ◌≤◌, ◌*◌, ◌^◌, ◌<◌, [], true, length, slice_index, ℕ, Option, IfOk, IfSome, IfNone};
ghost use Rattle.stream_graph.specs.declared.node.Kind.TheVariants.{Input};
ghost use Rattle.stream_graph.specs.Kinds.{is_input};
ghost use Rattle.offset_edges.specs.Edges.{edges_of};
ghost use Rattle.stream_graph.specs.LookUps.{kind_at};
ghost use Rattle.offset_edges.specs.Walks.{IsCausal};
ghost use Rattle.stream_equations.specs.Equations.{StreamEquations};
ghost use Rattle.kernel_family.specs.Steps.{IsStep, keeps, ahead};
ghost use Rattle.kernel_words.specs.Streams.{given_of, cell_at, values_of, IsGiven, AreWords};
ghost use Rattle.kernel_words.specs.Filling.{is_open, open_count, IsPlace, IsKnown, AreKnown, IsFilling, IsPut};
ghost use Rattle.kernel_words.specs.Filling.{IsTaken, StayKnown, IsOpenBefore, NoOpenBefore, IsOpenOperand, NoOpenOperand};

use crate::evaluate::{tick_ahead, word_at};
use crate::nodes::{kind_of, operand, operand_count};
use crate::ports::is_enabled;
use crate::{KernelRun, Streams};
use kernel_family::Place;
use mx_base::NoMemory;
use std::alloc::Global;
use stream_graph::{Kernel, Kind, NodeId};

/// The words of all nodes of a causal kernel in all ticks of a run. The only error is want of
/// memory.
///
/// Each word is computed once, after those on which it hangs: what waits for another word stands on
/// a stack.
pub fn kernel_streams(alloc: Global, kernel: &Kernel, run: &KernelRun) -> Result<Streams, NoMemory>
    requires causal { IsCausal (edges_of kernel.now.nodes) }
    requires given { IsGiven kernel.now.nodes run.now }
    requires few { length kernel.now.nodes * run.now.ticks ≤ 2 ^ 24 }
    ensures nodes { IfOk result (λ streams. streams.nodes ≡ length kernel.now.nodes) }
    ensures ticks { IfOk result (λ streams. streams.ticks ≡ run.now.ticks) }
    ensures equations { IfOk result (λ streams.
        StreamEquations kernel.now.nodes (given_of run.now) (values_of streams)) }
    ensures words { IfOk result (λ streams. AreWords kernel.now.nodes (values_of streams)) }
{
    let mut streams = Streams::open(alloc, kernel.count(), run.ticks)?;
    let mut taken = vec![in alloc; 0u64; kernel.count() as usize]?;
    let mut stack = Vec::new(alloc);
    for number in 0..kernel.count() {
        for tick in 0..run.ticks {
            let place = Place { node: number, tick };
            settle(
                kernel,
                run,
                &mut streams,
                taken.as_mut_slice(),
                &mut stack,
                place,
            )?;
        }
    }
    Ok(streams)
}

// Makes a word known, and all on which it hangs.
fn settle(
    kernel: &Kernel,
    run: &KernelRun,
    streams: &mut Streams,
    taken: &mut [u64],
    stack: &mut Vec<Place>,
    place: Place,
) -> Result<(), NoMemory>
    requires causal { IsCausal (edges_of kernel.now.nodes) }
    requires given { IsGiven kernel.now.nodes run.now }
    requires filling { IsFilling kernel.now.nodes run.now streams.old taken.old }
    requires place { IsPlace kernel.now.nodes streams.old.ticks place }
    requires empty { stack.old.items ≡ [] }
    ensures ticks { streams.new.ticks ≡ streams.old.ticks }
    ensures filling { IsFilling kernel.now.nodes run.now streams.new taken.new }
    ensures empty { IfOk result (λ _. stack.new.items ≡ []) }
    ensures known { IfOk result (λ _. IsKnown streams.new place) }
    ensures kept { StayKnown kernel.now.nodes streams.old streams.new }
{
    if !streams.is_open(place) {
        return Ok(());
    }
    stack.push(place)?;
    while stack.len() > 0 {
        let top = stack[stack.len() - 1];
        match first_open(kernel, streams, top) {
            Some(next) => stack.push(next)?,
            None => {
                fill(kernel, run, streams, taken, top);
                stack.pop();
            }
        }
    }
    Ok(())
}

// The first place one step back whose word isn't known.
fn first_open(kernel: &Kernel, streams: &Streams, place: Place) -> Option<Place>
    requires nodes { streams.now.nodes ≡ length kernel.now.nodes }
    requires place { IsPlace kernel.now.nodes streams.now.ticks place }
    ensures step { IfSome result (λ next. IsStep kernel.now.nodes place next) }
    ensures place { IfSome result (λ next. IsPlace kernel.now.nodes streams.now.ticks next) }
    ensures unknown { IfSome result (λ next. is_open (cell_at streams.now next.node next.tick) ≡ true) }
    ensures known { IfNone result (AreKnown kernel.now.nodes streams.now place) }
{
    let node = NodeId::new(place.node);
    if let Some(before) = open_before(kernel, streams, place) {
        return Some(before);
    }
    let tick = tick_ahead(place.tick, ahead(kind_of(kernel, node)))?;
    open_operand(kernel, streams, node, tick)
}

// The place of the same node a tick before, where its word hangs on that and it isn't known.
fn open_before(kernel: &Kernel, streams: &Streams, place: Place) -> Option<Place>
    requires nodes { streams.now.nodes ≡ length kernel.now.nodes }
    requires place { IsPlace kernel.now.nodes streams.now.ticks place }
    ensures some { IfSome result (IsOpenBefore kernel.now.nodes streams.now place) }
    ensures none { IfNone result (NoOpenBefore kernel.now.nodes streams.now place) }
{
    if !keeps(kind_of(kernel, NodeId::new(place.node))) {
        return None;
    }
    if place.tick == 0 {
        return None;
    }
    let before = Place {
        node: place.node,
        tick: place.tick - 1,
    };
    if streams.is_open(before) {
        return Some(before);
    }
    None
}

// The first operand whose word in this tick isn't known.
fn open_operand(kernel: &Kernel, streams: &Streams, node: NodeId, tick: u64) -> Option<Place>
    requires nodes { streams.now.nodes ≡ length kernel.now.nodes }
    requires node { node < length kernel.now.nodes }
    ensures some { IfSome result (IsOpenOperand kernel.now.nodes streams.now node tick) }
    ensures none { IfNone result (NoOpenOperand kernel.now.nodes streams.now node tick) }
{
    if tick >= streams.ticks() {
        return None;
    }
    for number in 0..operand_count(kernel, node) {
        let next = Place {
            node: operand(kernel, node, number).number(),
            tick,
        };
        if streams.is_open(next) {
            return Some(next);
        }
    }
    None
}

// Whether what a node of this kind has in a tick hangs on the tick before too.
fn keeps(kind: Kind) -> bool
    ensures { result ≡ keeps kind }
{
    matches!(kind, Kind::Input) || kind.keeps_state()
}

// How many ticks ahead a node of this kind reads its operands.
fn ahead(kind: Kind) -> i32
    ensures { result ≡ ahead kind }
{
    match kind {
        Kind::Offset(ticks) => ticks,
        _ => 0,
    }
}

// Makes a word known where all are on which it hangs.
fn fill(kernel: &Kernel, run: &KernelRun, streams: &mut Streams, taken: &mut [u64], place: Place)
    requires given { IsGiven kernel.now.nodes run.now }
    requires filling { IsFilling kernel.now.nodes run.now streams.old taken.old }
    requires place { IsPlace kernel.now.nodes streams.old.ticks place }
    requires unknown { is_open (cell_at streams.old place.node place.tick) ≡ true }
    requires known { AreKnown kernel.now.nodes streams.old place }
    ensures filling { IsFilling kernel.now.nodes run.now streams.new taken.new }
    ensures put { (word : Option ℕ) × IsPut streams.old streams.new place word }
    ensures known { IsKnown streams.new place }
    ensures kept { StayKnown kernel.now.nodes streams.old streams.new }
{
    let node = NodeId::new(place.node);
    let count = taken[place.node as usize];
    let word = word_at(kernel, run, streams, count, node, place.tick);
    take(kernel, streams, taken, place);
    streams.put(place, word);
}

// Counts a word that an input took.
fn take(kernel: &Kernel, streams: &Streams, taken: &mut [u64], place: Place)
    requires node { place.node < length kernel.now.nodes }
    requires counts { length taken.old ≡ length kernel.now.nodes }
    requires few { kind_at kernel.now.nodes place.node ≡ Input → slice_index taken.old place.node < 2 ^ 24 }
    ensures { IsTaken kernel.now.nodes streams.now taken.old taken.new place }
{
    let node = NodeId::new(place.node);
    if !is_input(kind_of(kernel, node)) {
        return;
    }
    if !is_enabled(kernel, streams, node, place.tick) {
        return;
    }
    taken[place.node as usize] += 1;
}

fn is_input(kind: Kind) -> bool
    ensures { result ≡ is_input kind }
{
    matches!(kind, Kind::Input)
}
