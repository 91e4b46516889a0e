// The outputs of a run, in the order of their ports.
ghost use Rattle.std.specs.Prelude.{◌≡◌, ◌⊎◌, ◌≤◌, ◌<◌, ◌^◌, ℕ, List, [], map, length, Err, IfOk, OnOk, OnErr, IfErr, IsSome};
ghost use Rattle.mx_base.specs.Counts.{Rose};
ghost use Rattle.simulation.specs.Inward.{HaveWidths};
ghost use Rattle.simulation.specs.Outputs.{ChangesOnlyOutputs, AreCreatedTo, HoldLinesBut};
ghost use Rattle.simulation.specs.Outward.{output_of, ArePut, AreWhole, DifferInName, all_with_moved, IsBegunAt, AreOfWidth};
ghost use Rattle.simulation.specs.declared.stop.Stop.TheVariants as stops;

use crate::output::Output;
use crate::stop::Stop;
use mx_base::{Files, List, Text};
use std::alloc::Global;
use verilog_sim::Event;

/// Creates the files of the outputs, in their order.
pub(crate) fn create_all<F: Files>(
    alloc: Global,
    files: &mut F,
    named: List<(Text, u8)>,
) -> Result<Vec<Output>, Stop>
    requires widths { HaveWidths named }
    requires apart { DifferInName named }
    ensures named { IfOk result (λ outputs. map output_of outputs.items ≡ named) }
    ensures made { IsSome (F.held files.old) → IfOk result (λ outputs. ArePut (F.held files.new) (λ k. []) outputs.items) }
    ensures stopped { OnErr result (IsSome (F.held files.old) → (n : ℕ) × AreCreatedTo n named (F.held files.old) (F.held files.new)) }
    ensures others { ChangesOnlyOutputs named (F.held files.old) (F.held files.new) }
    ensures errors { IfErr result (λ e. (e ≡ stops.WriteFault) ⊎ (e ≡ stops.NoMemory)) }
    ensures read_quiet { F.read_faults files.new ≡ F.read_faults files.old }
    ensures quiet { (result ≡ Err stops.WriteFault → ⊥) → F.write_faults files.new ≡ F.write_faults files.old }
    ensures fault { result ≡ Err stops.WriteFault → Rose (F.write_faults files.old) (F.write_faults files.new) }
{
    let mut outputs = Vec::new(alloc);
    for (name, width) in named.into_vec() {
        outputs.push(Output::create(alloc, files, name, width)?)?;
    }
    Ok(outputs)
}

/// Puts the lines of the words that left in an edge.
pub(crate) fn put_all<F: Files>(
    outputs: &mut [Output],
    events: &[Event],
    files: &mut F,
) -> Result<(), Stop>
    requires events { length outputs.old ≤ length events.now }
    requires words { AreOfWidth (map output_of outputs.old) events.now }
    requires apart { DifferInName (map output_of outputs.old) }
    requires begun { IsSome (F.held files.old) → IsBegunAt (F.held files.old) outputs.old }
    ensures named { map output_of outputs.new ≡ map output_of outputs.old }
    ensures put { (words : ℕ → List ℕ) → ArePut (F.held files.old) words outputs.old →
        OnOk result (ArePut (F.held files.new) (all_with_moved words events.now) outputs.new) }
    ensures stopped { OnErr result (IsSome (F.held files.old) → (n : ℕ) × HoldLinesBut n (map output_of outputs.old) (F.held files.new)) }
    ensures others { ChangesOnlyOutputs (map output_of outputs.old) (F.held files.old) (F.held files.new) }
    ensures errors { IfErr result (λ e. (e ≡ stops.WriteFault) ⊎ (e ≡ stops.NoMemory)) }
    ensures read_quiet { F.read_faults files.new ≡ F.read_faults files.old }
    ensures quiet { (result ≡ Err stops.WriteFault → ⊥) → F.write_faults files.new ≡ F.write_faults files.old }
    ensures fault { result ≡ Err stops.WriteFault → Rose (F.write_faults files.old) (F.write_faults files.new) }
{
    for k in 0..outputs.len() {
        outputs[k].put(events[k], files)?;
    }
    Ok(())
}

/// Writes all lines that wait.
pub(crate) fn flush_all<F: Files>(outputs: &mut [Output], files: &mut F) -> Result<(), Stop>
    requires apart { DifferInName (map output_of outputs.old) }
    requires begun { IsSome (F.held files.old) → IsBegunAt (F.held files.old) outputs.old }
    ensures named { map output_of outputs.new ≡ map output_of outputs.old }
    ensures whole { (words : ℕ → List ℕ) → ArePut (F.held files.old) words outputs.old →
        OnOk result (AreWhole (F.held files.new) words (map output_of outputs.old)) }
    ensures stopped { OnErr result (IsSome (F.held files.old) → (n : ℕ) × HoldLinesBut n (map output_of outputs.old) (F.held files.new)) }
    ensures others { ChangesOnlyOutputs (map output_of outputs.old) (F.held files.old) (F.held files.new) }
    ensures errors { IfErr result (λ e. e ≡ stops.WriteFault) }
    ensures read_quiet { F.read_faults files.new ≡ F.read_faults files.old }
    ensures quiet { (result ≡ Err stops.WriteFault → ⊥) → F.write_faults files.new ≡ F.write_faults files.old }
    ensures fault { result ≡ Err stops.WriteFault → Rose (F.write_faults files.old) (F.write_faults files.new) }
{
    for k in 0..outputs.len() {
        outputs[k].flush(files)?;
    }
    Ok(())
}
