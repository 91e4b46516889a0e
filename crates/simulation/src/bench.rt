// A design between the files of its streams.
ghost use Rattle.std.specs.Prelude.{◌≡◌, ◌⊎◌, ◌≤◌, ◌<◌, ◌+◌, ◌-◌, ◌^◌, ℕ, List, min, map, length, Some, Err, IfOk, OnOk, OnErr, IfErr, IsSome, false};
ghost use Rattle.mx_base.specs.Counts.{Rose};
ghost use Rattle.stall_source.specs.Stalls.{IsDecided, IsFreeAtZero};
ghost use Rattle.verilog_sim.specs.Calls.{IsDone};

use crate::asking::{accept_all, ask};
use crate::input::{Input, NOTHING};
use crate::inputs::{offer_all, open, take_all};
use crate::output::Output;
use crate::outputs::{create_all, flush_all, put_all};
use crate::plan::Plan;
use crate::steady::set_all;
use crate::stop::{Outcome, Stop};
use mx_base::Files;
use rtl_ir::{Design, Interface};
use stall_source::Pattern;
use std::alloc::Global;
use verilog_sim::{Event, Offer, Sim};

/// A simulator, the inputs and outputs of its run, and what is given to an edge and seen of it.
#[derive(Drop)]
pub(crate) struct Bench<'a> {
    pub(crate) sim: Sim<'a>,
    pub(crate) inputs: Vec<Input>,
    pub(crate) outputs: Vec<Output>,
    pub(crate) stalled: Vec<bool>,
    pub(crate) offers: Vec<Offer>,
    pub(crate) accepts: Vec<bool>,
    pub(crate) events: Vec<Event>,
}

/// What is seen of a stream before the first edge.
const UNMOVED: Event = Event {
    moved: false,
    word: 0,
};

impl<'a> Bench<'a> {
    ghost use Rattle.simulation.specs.Answers.{Tells, IsMissing};
    ghost use Rattle.simulation.specs.Benches.{IsBench, IsSetup, Begins, Going};
    ghost use Rattle.rtl_ir.specs.declared.design.Module.{Module};
    ghost use Rattle.rtl_ir.specs.Flat.{top_of};
    ghost use Rattle.rtl_ir.specs.Interfaces.{IsInterface};
    ghost use Rattle.rtl_ir.specs.Ports.{Shape, HasShape};
    ghost use Rattle.rtl_ir.specs.Rules.{IsAccepted};
    ghost use Rattle.verilog_sim.specs.Start.{all_cells};
    ghost use Rattle.simulation.specs.Errors.{IsEdgeStop, IsNewStop};
    ghost use Rattle.simulation.specs.Plans.{FitsShape, AreApart, setup_of};
    ghost use Rattle.simulation.specs.Outputs.{ChangesOnlyOutputs, AreCreatedTo, HoldLinesBut};
    ghost use Rattle.simulation.specs.Outward.{output_of, IsBegunAt, ArePut, AreWhole, DifferInName};
    ghost use Rattle.simulation.specs.Runs.{Setup};
    ghost use Rattle.simulation.specs.declared.stop.Stop.TheVariants as stops;

    /// A design before its reset edge, with its inputs unread and its output files created.
    pub(crate) fn new<F: Files>(
        alloc: Global,
        files: &mut F,
        design: &'a Design,
        ports: &'a Interface,
        plan: Plan,
    ) -> Result<Self, Stop>
        requires accepted { IsAccepted design.now }
        requires ports { (m : Module) → top_of design.now ≡ Some m → IsInterface m ports.now }
        requires shape { (m : Module) × (s : Shape) × (top_of design.now ≡ Some m) × HasShape m s × FitsShape plan s }
        requires apart { AreApart plan }
        ensures bench { IfOk result IsBench }
        ensures begun { IsSome (F.held files.old) → IfOk result (λ made. IsBegunAt (F.held files.new) made.outputs.items) }
        ensures named { IfOk result (λ made. map output_of made.outputs.items ≡ plan.outputs) }
        ensures begins { (m : Module) (s : Shape) → top_of design.now ≡ Some m → HasShape m s → IsSome (F.held files.old)
            → IfOk result (λ made. Begins (setup_of design.now m s plan (F.held files.old)) (F.held files.new) made.sim made.inputs.items made.outputs.items) }
        ensures cells { (n : ℕ) → result ≡ Err (stops.TooManyCells n) → (2 ^ 26 < all_cells design.now) × (n ≡ min (all_cells design.now) (2 ^ 64 - 1)) }
        ensures too_many { 2 ^ 26 < all_cells design.now
            → IfErr result (λ e. (e ≡ stops.TooManyCells
            (min (all_cells design.now) (2 ^ 64 - 1))) ⊎ (e ≡ stops.NoMemory))
            × (F.held files.new ≡ F.held files.old) × OnOk result ⊥ }
        ensures errors { IfErr result IsNewStop }
        ensures stopped { OnErr result (IsSome (F.held files.old) → (n : ℕ) × AreCreatedTo n plan.outputs (F.held files.old) (F.held files.new)) }
        ensures others { ChangesOnlyOutputs plan.outputs (F.held files.old) (F.held files.new) }
        ensures read_quiet { F.read_faults files.new ≡ F.read_faults files.old }
        ensures write_quiet { (result ≡ Err stops.WriteFault → ⊥) → F.write_faults files.new ≡ F.write_faults files.old }
        ensures write_fault { result ≡ Err stops.WriteFault → Rose (F.write_faults files.old) (F.write_faults files.new) }
    {
        let (kernels, inputs, outputs) = (plan.ticks.len(), plan.inputs.len(), plan.outputs.len());
        let stalled = vec![in alloc; false; inputs + outputs + kernels]?;
        let offers = vec![in alloc; NOTHING; inputs]?;
        let accepts = vec![in alloc; false; outputs]?;
        let events = vec![in alloc; UNMOVED; inputs + outputs]?;
        let readers = open(alloc, plan.inputs)?;
        let mut sim = Sim::new(alloc, design, ports, plan.fill)?;
        set_all(&mut sim, plan.ticks.as_slice(), plan.scalars.as_slice());
        let writers = create_all(alloc, files, plan.outputs)?;
        Ok(Bench {
            sim,
            inputs: readers,
            outputs: writers,
            stalled,
            offers,
            accepts,
            events,
        })
    }

    /// One edge after so many others, where the port done isn't 1.
    fn edge<F: Files, G: Fn(u64, u64, u32) -> bool>(
        &mut self,
        files: &mut F,
        stalls: &Pattern<G>,
        pick: u64,
        edge: u64,
    ) -> Result<(), Stop>
        requires bench { IsBench self.old }
        requires begun { IsSome (F.held files.old) → IsBegunAt (F.held files.old) self.old.outputs.items }
        requires callable { G.IsAlwaysCallable stalls.now.test }
        requires decided { IsDecided (G.post stalls.now.test) }
        requires free { IsFreeAtZero (G.post stalls.now.test) }
        ensures bench { OnOk result (IsBench self.new) }
        ensures begun { OnOk result (IsSome (F.held files.old) → IsBegunAt (F.held files.new) self.new.outputs.items) }
        ensures named { map output_of self.new.outputs.items ≡ map output_of self.old.outputs.items }
        ensures same { self.new.sim.design ≡ self.old.sim.design }
        ensures errors { IfErr result IsEdgeStop }
        ensures goes { (s : Setup) (edges : ℕ) → IsSetup s pick edges → IsDone s.top self.old.sim false
            → (IsSome (F.held files.old) → Going (G.post stalls.now.test) s (F.held files.old) self.old.sim self.old.inputs.items self.old.outputs.items edge)
            → OnOk result (IsSome (F.held files.old)
            → Going (G.post stalls.now.test) s
            (F.held files.new) self.new.sim self.new.inputs.items self.new.outputs.items
            (edge + 1)) }
        ensures tells { (s : Setup) (edges : ℕ) → IsSetup s pick edges → IsDone s.top self.old.sim false → edge < edges
            → (IsSome (F.held files.old) → Going (G.post stalls.now.test) s (F.held files.old) self.old.sim self.old.inputs.items self.old.outputs.items edge)
            → IfErr result (λ e. IsSome (F.held files.old)
            → Tells (G.post stalls.now.test) s (map output_of self.old.outputs.items)
            (F.held files.new) (Err e)) }
        ensures missing { (s : Setup) (edges : ℕ) → IsSetup s pick edges → (IsSome (F.held files.old) → IsDone s.top self.old.sim false) → edge < edges
            → (IsSome (F.held files.old) → Going (G.post stalls.now.test) s (F.held files.old) self.old.sim self.old.inputs.items self.old.outputs.items edge)
            → result ≡ Err stops.ReadFault → Rose (F.read_faults files.old) (F.read_faults files.new) ⊎ IsMissing (G.post stalls.now.test) s }
        ensures told { result ≡ Err stops.ReadFault → Rose (F.read_faults files.old) (F.read_faults files.new) ⊎ IsSome (F.held files.old) }
        ensures stopped { OnErr result (IsSome (F.held files.old) → (n : ℕ) × HoldLinesBut n (map output_of self.old.outputs.items) (F.held files.new)) }
        ensures others { ChangesOnlyOutputs (map output_of self.old.outputs.items) (F.held files.old) (F.held files.new) }
        ensures read_quiet { (result ≡ Err stops.ReadFault → ⊥) → F.read_faults files.new ≡ F.read_faults files.old }
        ensures write_quiet { (result ≡ Err stops.WriteFault → ⊥) → F.write_faults files.new ≡ F.write_faults files.old }
        ensures write_fault { result ≡ Err stops.WriteFault → Rose (F.write_faults files.old) (F.write_faults files.new) }
    {
        let (inputs, outputs) = (self.inputs.len(), self.outputs.len());
        ask(stalls, pick, edge, &mut self.stalled);
        offer_all(&mut self.inputs, &self.stalled, files, &mut self.offers)?;
        accept_all(&self.stalled[inputs..], &mut self.accepts);
        self.sim.edge(
            &self.offers,
            &self.accepts,
            &self.stalled[inputs + outputs..],
            &mut self.events,
        );
        take_all(&mut self.inputs, &self.events);
        put_all(&mut self.outputs, &self.events[inputs..], files)
    }

    /// Makes the reset edge, and then edges until the port done is 1 or so many are made.
    pub(crate) fn run<F: Files, G: Fn(u64, u64, u32) -> bool>(
        &mut self,
        files: &mut F,
        stalls: &Pattern<G>,
        pick: u64,
        edges: u64,
    ) -> Result<Outcome, Stop>
        requires bench { IsBench self.old }
        requires begun { IsSome (F.held files.old) → IsBegunAt (F.held files.old) self.old.outputs.items }
        requires callable { G.IsAlwaysCallable stalls.now.test }
        requires decided { IsDecided (G.post stalls.now.test) }
        requires free { IsFreeAtZero (G.post stalls.now.test) }
        ensures tells { (s : Setup) → IsSetup s pick edges
            → (IsSome (F.held files.old) → Begins s (F.held files.old) self.old.sim self.old.inputs.items self.old.outputs.items)
            → IsSome (F.held files.old) → Tells (G.post stalls.now.test) s (map output_of self.old.outputs.items) (F.held files.new) result }
        ensures missing { (s : Setup) → IsSetup s pick edges
            → (IsSome (F.held files.old) → Begins s (F.held files.old) self.old.sim self.old.inputs.items self.old.outputs.items)
            → result ≡ Err stops.ReadFault → Rose (F.read_faults files.old) (F.read_faults files.new) ⊎ IsMissing (G.post stalls.now.test) s }
        ensures told { result ≡ Err stops.ReadFault → Rose (F.read_faults files.old) (F.read_faults files.new) ⊎ IsSome (F.held files.old) }
        ensures errors { IfErr result IsEdgeStop }
        ensures stopped { OnErr result (IsSome (F.held files.old) → (n : ℕ) × HoldLinesBut n (map output_of self.old.outputs.items) (F.held files.new)) }
        ensures others { ChangesOnlyOutputs (map output_of self.old.outputs.items) (F.held files.old) (F.held files.new) }
        ensures read_quiet { (result ≡ Err stops.ReadFault → ⊥) → F.read_faults files.new ≡ F.read_faults files.old }
        ensures write_quiet { (result ≡ Err stops.WriteFault → ⊥) → F.write_faults files.new ≡ F.write_faults files.old }
        ensures write_fault { result ≡ Err stops.WriteFault → Rose (F.write_faults files.old) (F.write_faults files.new) }
    {
        self.sim.reset();
        for edge in 0..edges {
            if self.sim.done() {
                return self.end(files, true, edge);
            }
            self.edge(files, stalls, pick, edge)?;
        }
        let done = self.sim.done();
        self.end(files, done, edges)
    }

    /// Writes the lines that wait.
    fn end<F: Files>(&mut self, files: &mut F, done: bool, edges: u64) -> Result<Outcome, Stop>
        requires apart { DifferInName (map output_of self.old.outputs.items) }
        requires begun { IsSome (F.held files.old) → IsBegunAt (F.held files.old) self.old.outputs.items }
        ensures outcome { IfOk result (λ outcome. (outcome.done ≡ done) × (outcome.edges ≡ edges)) }
        ensures whole { (words : ℕ → List ℕ) → ArePut (F.held files.old) words self.old.outputs.items →
            OnOk result (AreWhole (F.held files.new) words (map output_of self.old.outputs.items)) }
        ensures errors { IfErr result (λ e. e ≡ stops.WriteFault) }
        ensures stopped { OnErr result (IsSome (F.held files.old) → (n : ℕ) × HoldLinesBut n (map output_of self.old.outputs.items) (F.held files.new)) }
        ensures others { ChangesOnlyOutputs (map output_of self.old.outputs.items) (F.held files.old) (F.held files.new) }
        ensures read_quiet { F.read_faults files.new ≡ F.read_faults files.old }
        ensures quiet { (result ≡ Err stops.WriteFault → ⊥) → F.write_faults files.new ≡ F.write_faults files.old }
        ensures fault { result ≡ Err stops.WriteFault → Rose (F.write_faults files.old) (F.write_faults files.new) }
    {
        flush_all(&mut self.outputs, files)?;
        Ok(Outcome { done, edges })
    }
}
