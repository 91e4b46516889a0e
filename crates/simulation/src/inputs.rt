// The inputs of a run, in the order of their ports.
ghost use Rattle.std.specs.Prelude.{◌≡◌, ◌⊎◌, ◌≤◌, List, ℕ, map, length, Err, IfOk, IfErr, OnOk, IsSome};
ghost use Rattle.mx_base.specs.Counts.{Rose};
ghost use Rattle.simulation.specs.Errors.{IsReadStop};
ghost use Rattle.simulation.specs.Inputs.{InputFile};
ghost use Rattle.simulation.specs.Inward.{input_of, AreAt, AreReady, IsFirstStop, AreOfWidths, AreTaken, AreUnrefused, AreBegun, HaveWidths};
ghost use Rattle.simulation.specs.declared.stop.Stop.TheVariants as stops;

use crate::input::Input;
use crate::stop::Stop;
use mx_base::{Files, List, NoMemory, Text};
use std::alloc::Global;
use verilog_sim::{Event, Offer};

/// The inputs of these files, of which nothing is read.
pub(crate) fn open(alloc: Global, named: List<(Text, u8)>) -> Result<Vec<Input>, NoMemory>
    requires widths { HaveWidths named }
    ensures named { IfOk result (λ inputs. map input_of inputs.items ≡ named) }
    ensures begin { IfOk result (λ inputs. AreBegun inputs.items) }
{
    let mut inputs = Vec::new(alloc);
    for (name, width) in named.into_vec() {
        inputs.push(Input::new(alloc, name, width)?)?;
    }
    Ok(inputs)
}

/// What each input offers, in their order: nothing where it stalls.
pub(crate) fn offer_all<F: Files>(
    inputs: &mut [Input],
    stalled: &[bool],
    files: &mut F,
    offers: &mut [Offer],
) -> Result<(), Stop>
    requires stalled { length inputs.old ≤ length stalled.now }
    requires offers { length offers.old ≡ length inputs.old }
    requires unrefused { AreUnrefused inputs.old }
    ensures same { F.held files.new ≡ F.held files.old }
    ensures quiet { (result ≡ Err stops.ReadFault → ⊥) → F.read_faults files.new ≡ F.read_faults files.old }
    ensures write_quiet { F.write_faults files.new ≡ F.write_faults files.old }
    ensures named { map input_of inputs.new ≡ map input_of inputs.old }
    ensures errors { IfErr result IsReadStop }
    ensures unrefused { OnOk result (AreUnrefused inputs.new) }
    ensures fault { result ≡ Err stops.ReadFault →
        Rose (F.read_faults files.old) (F.read_faults files.new) ⊎ IsSome (F.held files.old) }
    ensures words { OnOk result (AreOfWidths (map input_of inputs.old) offers.new) }
    ensures stand { (fs : List InputFile) (lefts : List (List ℕ)) → AreAt (F.held files.old) fs lefts inputs.old →
        OnOk result (AreAt (F.held files.old) fs lefts inputs.new) }
    ensures ready { (fs : List InputFile) (lefts : List (List ℕ)) → AreAt (F.held files.old) fs lefts inputs.old →
        OnOk result (AreReady (F.held files.old) stalled.now fs lefts inputs.new offers.new (length inputs.old)) }
    ensures stopped { (fs : List InputFile) (lefts : List (List ℕ)) → AreAt (F.held files.old) fs lefts inputs.old →
        IfErr result (IsFirstStop (F.held files.old) (Rose (F.read_faults files.old) (F.read_faults files.new)) stalled.now fs lefts) }
{
    for k in 0..inputs.len() {
        offers[k] = inputs[k].look(stalled[k], files)?;
    }
    Ok(())
}

/// Drops the words that were taken.
pub(crate) fn take_all(inputs: &mut [Input], events: &[Event])
    requires events { length inputs.old ≤ length events.now }
    ensures named { map input_of inputs.new ≡ map input_of inputs.old }
    ensures unrefused { AreUnrefused inputs.old → AreUnrefused inputs.new }
    ensures taken { AreTaken events.now inputs.old inputs.new (length inputs.old) }
{
    for k in 0..inputs.len() {
        inputs[k].take(events[k]);
    }
}
