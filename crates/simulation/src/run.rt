// A run of a design.
ghost use Rattle.std.specs.Prelude.{◌≡◌, ◌⊎◌, ◌≤◌, ◌<◌, ◌-◌, ◌^◌, ℕ, List, min, Some, Err, IfErr, OnOk, OnErr, length, IsSome};
ghost use Rattle.mx_base.specs.Counts.{Rose};
ghost use Rattle.rtl_ir.specs.declared.design.Module.{Module};
ghost use Rattle.rtl_ir.specs.Flat.{Families, top_of};
ghost use Rattle.rtl_ir.specs.Interfaces.{IsInterface};
ghost use Rattle.rtl_ir.specs.Ports.{Shape, HasShape};
ghost use Rattle.rtl_ir.specs.Rules.{IsAccepted};
ghost use Rattle.stall_source.specs.Stalls.{IsDecided, IsFreeAtZero};
ghost use Rattle.verilog_sim.specs.Start.{all_cells};
ghost use Rattle.simulation.specs.Outputs.{ChangesOnlyOutputs, Leaves};
ghost use Rattle.simulation.specs.Ends.{End, Ends};
ghost use Rattle.simulation.specs.Plans.{FitsShape, AreApart, setup_of};
ghost use Rattle.simulation.specs.Answers.{Tells, IsMissing, IsOrFails};
ghost use Rattle.simulation.specs.declared.stop.Stop.TheVariants as stops;

use crate::bench::Bench;
use crate::plan::Plan;
use crate::stop::{Outcome, Stop};
use mx_base::Files;
use rtl_ir::{Design, Interface};
use stall_source::Pattern;
use std::alloc::Global;

/// Simulates an accepted design whose top module has the ports of a run, which are given.
///
/// The output files are created in the order of their ports, and one edge with reset is made. Then
/// edges are made until the port `done` is 1 or the plan's number of edges is reached. Before an
/// edge the inputs are looked at in the order of their ports: one that doesn't stall and has no word
/// waiting reads its next line. It offers its word where it doesn't stall; where it offers none its
/// word is 0. The words that leave an output are appended to its file, whole lines at a time.
///
/// Errors: `TooManyCells` before any file is created; `BadLine` and `WordRange` at the edge where
/// the line is read; `ReadFault`, `WriteFault` where a call of the files failed, and `ReadFault` also
/// where an input file isn't held; `NoMemory`. After `BadLine`, `WordRange` and `ReadFault` each
/// output file holds the lines of the first words that left, and the lines that still waited aren't
/// written. After `WriteFault` and `NoMemory` nothing is said of one output file; of the others, all
/// hold lines of words, or those before it are empty and those behind it as they were. No other file
/// changes.
pub fn simulate<F: Files, G: Fn(u64, u64, u32) -> bool>(
    alloc: Global,
    files: &mut F,
    design: &Design,
    ports: &Interface,
    plan: Plan,
    stalls: &Pattern<G>,
) -> Result<Outcome, Stop>
    requires accepted { IsAccepted design.now }
    requires ports { (m : Module) → top_of design.now ≡ Some m → IsInterface m ports.now }
    requires shape { (m : Module) × (s : Shape) × (top_of design.now ≡ Some m) × HasShape m s × FitsShape plan s }
    requires apart { AreApart plan }
    requires callable { G.IsAlwaysCallable stalls.now.test }
    requires decided { IsDecided (G.post stalls.now.test) }
    requires free { IsFreeAtZero (G.post stalls.now.test) }

    // What the answer says of the run, where the files are told; and where a run ends, there is no other answer.
    ensures tells { (m : Module) (s : Shape) → top_of design.now ≡ Some m → HasShape m s → IsSome (F.held files.old)
        → Tells (G.post stalls.now.test) (setup_of design.now m s plan (F.held files.old)) plan.outputs (F.held files.new) result }
    ensures exact { (m : Module) (s : Shape) → top_of design.now ≡ Some m → HasShape m s → IsSome (F.held files.old) → all_cells design.now ≤ 2 ^ 26
        → (restart : Families) (vs : List Families) (end : End)
        → Ends (G.post stalls.now.test) (setup_of design.now m s plan (F.held files.old)) restart vs end → IsOrFails end result }

    // Too many cells, before any file is created.
    ensures cells { (n : ℕ) → result ≡ Err (stops.TooManyCells n) → (2 ^ 26 < all_cells design.now) × (n ≡ min (all_cells design.now) (2 ^ 64 - 1)) }
    ensures too_many { 2 ^ 26 < all_cells design.now
        → IfErr result (λ e. (e ≡ stops.TooManyCells (min (all_cells design.now) (2 ^ 64 - 1)))
        ⊎ (e ≡ stops.NoMemory)) × (F.held files.new ≡ F.held files.old) × OnOk result ⊥ }

    // Failures, and what they count.
    ensures read_fault { (m : Module) (s : Shape) → top_of design.now ≡ Some m → HasShape m s → result ≡ Err stops.ReadFault
        → Rose (F.read_faults files.old) (F.read_faults files.new) ⊎ IsMissing (G.post stalls.now.test) (setup_of design.now m s plan (F.held files.old)) }
    ensures read_fault_told { result ≡ Err stops.ReadFault → Rose (F.read_faults files.old) (F.read_faults files.new) ⊎ IsSome (F.held files.old) }
    ensures write_fault { result ≡ Err stops.WriteFault → Rose (F.write_faults files.old) (F.write_faults files.new) }
    ensures read_quiet { (result ≡ Err stops.ReadFault → ⊥) → F.read_faults files.new ≡ F.read_faults files.old }
    ensures write_quiet { (result ≡ Err stops.WriteFault → ⊥) → F.write_faults files.new ≡ F.write_faults files.old }

    // What an answer that is an error leaves: the files were created in the order of the outputs.
    ensures leaves { OnErr result (IsSome (F.held files.old) → Leaves plan.outputs (F.held files.old) (F.held files.new)) }
    ensures others { ChangesOnlyOutputs plan.outputs (F.held files.old) (F.held files.new) }
{
    let (pick, edges) = (plan.pick, plan.edges);
    let mut bench = Bench::new(alloc, files, design, ports, plan)?;
    bench.run(files, stalls, pick, edges)
}
