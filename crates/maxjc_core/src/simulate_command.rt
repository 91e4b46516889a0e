// The command `simulate`.
ghost use Rattle.std.specs.Prelude.{◌≡◌, ◌⊎◌, ℕ, List, Some, IsSome, IfOk};
ghost use Rattle.mx_base.specs.Counts.{Rose};
ghost use Rattle.mx_base.specs.Files.{Lacks};
ghost use Rattle.rtl_ir.specs.Flat.{Families};
ghost use Rattle.stall_source.specs.Stalls.{IsDecided, IsFreeAtZero};
ghost use Rattle.simulation.specs.Ends as ends;
ghost use Rattle.simulation.specs.Ends.{Ends};
ghost use Rattle.maxjc_core.specs.Command.{said_more};
ghost use Rattle.maxjc_core.specs.CauseLines.{Cause, line_of};
ghost use Rattle.maxjc_core.specs.Loading.{IsLoaded, setup};
ghost use Rattle.maxjc_core.specs.SimulateCauses.{IsSmall, StandsIn, LacksFile, LacksInput};
ghost use Rattle.maxjc_core.specs.SimulateRuns.{IsRunDone, IsRunLimited, IsRunRefused, ReadFails, ChangesOutputs, LeavesOutputs};
ghost use Rattle.maxjc_core.specs.ErrorCauses.{stop_cause, IfCause};
ghost use Rattle.maxjc_core.specs.RunStops.{end_status, end_line, stop_status};
ghost use Rattle.simulation.specs.declared.stop.Stop.TheVariants as stops;
ghost use Rattle.maxjc_core.specs.NamedCommand.{run_told};
ghost use Rattle.maxjc_core.specs.Writing.{WritesAllWords};
ghost use Rattle.maxjc_core.specs.Finishing.{AllFinish};
ghost use Rattle.maxjc_core.specs.CommandEnds.{IsQuiet, IsSilent, IsCutOff, WriteFailed};

use crate::Status;
use crate::command::Simulate;
use crate::load::{Loaded, load};
use crate::refusal::Refusal;
use crate::saying::{refuse, say_stop};
use itoa::Buffer;
use mx_base::{Files, NoMemory, Say};
use simulation::{Outcome, Stop as RunStop, simulate};
use stall_source::Pattern;
use std::alloc::Global;

// The line of how a run ended.
fn line_of_end(alloc: Global, outcome: Outcome) -> Result<Vec<u8>, NoMemory>
    ensures { IfOk result (λ line. line.items ≡ end_line outcome) }
{
    let begin: &[u8] = if outcome.done {
        b"done after "
    } else {
        b"not done after "
    };
    let mut line = begin.to_vec(alloc)?;
    let mut digits = Buffer::new();
    line.extend_from_slice(digits.format(outcome.edges).as_bytes())?;
    line.extend_from_slice(b" edges\n")?;
    Ok(line)
}

// Says how a run ended.
fn report<S: Say>(alloc: Global, say: &mut S, outcome: Outcome) -> Status
    ensures ends { (result ≡ end_status outcome) ⊎ ((result ≡ Status.WriteFault) ⊎ (result ≡ Status.NoMemory)) }
    ensures said { result ≡ end_status outcome → S.said say.new ≡ said_more (S.said say.old) (end_line outcome) }
    ensures quiet { result ≡ end_status outcome → S.say_faults say.new ≡ S.say_faults say.old }
    ensures silent { result ≡ Status.NoMemory → (S.said say.new ≡ S.said say.old) × (S.say_faults say.new ≡ S.say_faults say.old) }
    ensures fault { result ≡ Status.WriteFault → Rose (S.say_faults say.old) (S.say_faults say.new) }
{
    let Ok(line) = line_of_end(alloc, outcome) else {
        return Status::NoMemory;
    };
    match say.say(&line) {
        Err(_) => Status::WriteFault,
        Ok(()) => if outcome.done {
            Status::Done
        } else {
            Status::EdgeLimit
        },
    }
}

// Ends a run that was stopped.
fn stopped<S: Say>(alloc: Global, say: &mut S, stop: RunStop) -> Status
    ensures ends { (result ≡ stop_status stop) ⊎ ((stop_status stop ≡ Status.Refused) × ((result ≡ Status.WriteFault) ⊎ (result ≡ Status.NoMemory))) }
    ensures said { result ≡ Status.Refused → IfCause (stop_cause stop) (λ cause. S.said say.new ≡ said_more (S.said say.old) (line_of cause)) }
    ensures quiet { (result ≡ Status.WriteFault → ⊥) → S.say_faults say.new ≡ S.say_faults say.old }
    ensures silent { (result ≡ Status.ReadFault) ⊎ (result ≡ Status.NoMemory) → S.said say.new ≡ S.said say.old }
    ensures fault { result ≡ Status.WriteFault →
        (stop ≡ stops.WriteFault × (S.said say.new ≡ S.said say.old) × (S.say_faults say.new ≡ S.say_faults say.old))
        ⊎ ((stop_status stop ≡ Status.Refused) × Rose (S.say_faults say.old) (S.say_faults say.new)) }
{
    match stop {
        RunStop::ReadFault => Status::ReadFault,
        RunStop::WriteFault => Status::WriteFault,
        RunStop::NoMemory => Status::NoMemory,
        fault => refuse(alloc, say, &Refusal::Run(fault)),
    }
}

/// Simulates a text: reads it and its run file, runs it over the words of the input files, and says
/// how the run ended.
pub fn run_simulate<F: Files, S: Say, G: Fn(u64, u64, u32) -> bool>(
    alloc: Global,
    files: &mut F,
    say: &mut S,
    names: Simulate<'_>,
    stalls: &Pattern<G>,
) -> Status
    requires callable { G.IsAlwaysCallable stalls.now.test }
    requires decided { IsDecided (G.post stalls.now.test) }
    requires free { IsFreeAtZero (G.post stalls.now.test) }
    ensures usage { result ≡ Status.Usage → ⊥ }

    // `Done` and `EdgeLimit`: the run, the files that it wrote, and what was said. Where the run ends so, there is no other status.
    ensures done { result ≡ Status.Done → IsSome (F.held files.old)
        → IsRunDone (G.post stalls.now.test) (run_told names.entry)
        (F.held files.old) (F.held files.new) (S.said say.old) (S.said say.new) }
    ensures limited { result ≡ Status.EdgeLimit → IsSome (F.held files.old)
        → IsRunLimited (G.post stalls.now.test) (run_told names.entry)
        (F.held files.old) (F.held files.new) (S.said say.old) (S.said say.new) }
    ensures ends_done { (l : IsLoaded (run_told names.entry) (F.held files.old)) → IsSmall l
        → (restart : Families) (vs : List Families) (edges : ℕ)
        → Ends (G.post stalls.now.test) (setup l) restart vs (ends.Done edges) → (result ≡ Status.Done) ⊎ IsCutOff result }
    ensures ends_limited { (l : IsLoaded (run_told names.entry) (F.held files.old)) → IsSmall l
        → (restart : Families) (vs : List Families) (edges : ℕ)
        → Ends (G.post stalls.now.test) (setup l) restart vs (ends.Limit edges) → (result ≡ Status.EdgeLimit) ⊎ IsCutOff result }

    // Of a text that `compile` wrote each output holds words that agree with a beginning of those of its stream.
    ensures words_done { result ≡ Status.Done → IsSome (F.held files.old)
        → WritesAllWords (run_told names.entry) (F.held files.old) (F.held files.new) }
    ensures words_limited { result ≡ Status.EdgeLimit → IsSome (F.held files.old)
        → WritesAllWords (run_told names.entry) (F.held files.old) (F.held files.new) }

    // Of such a text a balanced run in which no port stalls and the input files hold all words is done in time.
    ensures finishes { IsSome (F.held files.old)
        → AllFinish (run_told names.entry) (F.held files.old) (S.said say.old) (S.said say.new) result }

    // `Refused` comes exactly where a cause stands, unless a call fails or memory is short. Before a run begins no file has
    // changed; in a run the outputs hold the first of the words that left.
    ensures refused { result ≡ Status.Refused
        → IsRunRefused (G.post stalls.now.test) (run_told names.entry)
        (F.held files.old) (F.held files.new) (S.said say.old) (S.said say.new) }
    ensures stands { (cause : Cause)
        → StandsIn (G.post stalls.now.test) (run_told names.entry) (F.held files.old) cause
        → (result ≡ Status.Refused) ⊎ IsCutOff result }

    // `ReadFault` comes only where the count of read faults rose or a file that is to be read isn't held; and what it leaves.
    ensures read_fault { result ≡ Status.ReadFault
        → Rose (F.read_faults files.old) (F.read_faults files.new)
        ⊎ LacksInput (G.post stalls.now.test) (run_told names.entry) (F.held files.old) }
    ensures cut_off { result ≡ Status.ReadFault → IsSome (F.held files.old)
        → ReadFails (G.post stalls.now.test) (run_told names.entry)
        (F.held files.old) (F.held files.new) (F.read_faults files.old) (F.read_faults files.new) }

    // It always comes where the text or the run file isn't held, unless memory is short.
    ensures missing { LacksFile (run_told names.entry) (F.held files.old) → (result ≡ Status.ReadFault) ⊎ (result ≡ Status.NoMemory) }
    ensures missing_quiet { Lacks (F.held files.old) names.entry.text.now → F.read_faults files.new ≡ F.read_faults files.old }
    ensures missing_input { LacksInput (G.post stalls.now.test) (run_told names.entry) (F.held files.old) → IsCutOff result }

    ensures write_fault { result ≡ Status.WriteFault → WriteFailed
        (F.write_faults files.old) (F.write_faults files.new)
        (S.say_faults say.old) (S.say_faults say.new) (S.said say.old) (S.said say.new) }
    ensures write_fault_reads { result ≡ Status.WriteFault → F.read_faults files.new ≡ F.read_faults files.old }
    ensures read_fault_writes { result ≡ Status.ReadFault →
        (F.write_faults files.new ≡ F.write_faults files.old)
        × (S.say_faults say.new ≡ S.say_faults say.old) }
    ensures quiet { IsQuiet result →
        (F.read_faults files.new ≡ F.read_faults files.old)
        × (F.write_faults files.new ≡ F.write_faults files.old)
        × (S.say_faults say.new ≡ S.say_faults say.old) }
    ensures silent { IsSilent result → S.said say.new ≡ S.said say.old }

    // No file changes but where a run begins, and there its outputs alone.
    ensures others { IsSome (F.held files.old) → ChangesOutputs (run_told names.entry) (F.held files.old) (F.held files.new) }

    // Whatever stopped a run, its outputs were created in the order of their ports.
    ensures leaves { IsSome (F.held files.old) → LeavesOutputs (G.post stalls.now.test)
        (run_told names.entry) (F.held files.old) (F.held files.new) }
{
    match load(alloc, files, names) {
        Ok(
            Loaded {
                design,
                ports,
                plan,
            },
        ) => match simulate(alloc, files, &design, &ports, plan, stalls) {
            Ok(outcome) => report(alloc, say, outcome),
            Err(stop) => stopped(alloc, say, stop),
        },
        Err(stop) => say_stop(alloc, say, stop),
    }
}
