// The command `expect`.
ghost use Rattle.std.specs.Prelude.{◌≡◌, ◌⊎◌, ◌≤◌, Err, IfErr, OnOk, IsSome};
ghost use Rattle.std.specs.List.{AllZip};
ghost use Rattle.mx_base.specs.Counts.{Rose};
ghost use Rattle.mx_base.specs.Files.{Lacks};
ghost use Rattle.simulation.specs.Outputs.{ChangesOnlyOutputs};
ghost use Rattle.word_files.specs.declared.error.WordError.TheVariants as errors;
ghost use Rattle.maxjc_core.specs.Command.{said_more};
ghost use Rattle.maxjc_core.specs.CommandEnds.{IsQuiet, IsSilent, IsCutOff, WriteFailed};
ghost use Rattle.maxjc_core.specs.ExpectCauses.{ExpectStands, LacksExpected};
ghost use Rattle.maxjc_core.specs.ExpectEnds.{ChangesExpected, HoldsLines, IsExpectDone, IsExpectRefused, WritesNothing};
ghost use Rattle.maxjc_core.specs.Expecting.{CanExpect};
ghost use Rattle.maxjc_core.specs.ExpectStops.{CanWrite};
ghost use Rattle.maxjc_core.specs.CauseLines.{Cause};
ghost use Rattle.maxjc_core.specs.NamedCommand.{expect_told};

use crate::Status;
use crate::command::Expect;
use crate::expect::{Answer, answer_files};
use crate::saying::{confirm, say_stop};
use mx_base::{Files, List, Say, Text};
use std::alloc::Global;
use word_files::WordError;
use word_lists::write_words;

// Writes the words of each output to its file, in the order of the ports.
fn write_outputs<F: Files>(
    alloc: Global,
    files: &mut F,
    outputs: &[(Text, u8)],
    words: &[List<Option<u128>>],
) -> Result<(), WordError>
    requires { CanWrite outputs.now words.now }
    ensures written { OnOk result (IsSome (F.held files.old)
        → AllZip (HoldsLines (F.held files.new)) outputs.now words.now) }
    ensures only { ChangesOnlyOutputs outputs.now (F.held files.old) (F.held files.new) }
    ensures errors { IfErr result (λ e. (e ≡ errors.WriteFault) ⊎ (e ≡ errors.NoMemory)) }
    ensures read_quiet { F.read_faults files.new ≡ F.read_faults files.old }
    ensures write_later { F.write_faults files.old ≤ F.write_faults files.new }
    ensures quiet { (result ≡ Err errors.WriteFault → ⊥)
        → F.write_faults files.new ≡ F.write_faults files.old }
    ensures fault { result ≡ Err errors.WriteFault
        → Rose (F.write_faults files.old) (F.write_faults files.new) }
{
    for number in 0..outputs.len() {
        let (name, width) = &outputs[number];
        write_words(alloc, files, name, *width, words[number].as_slice())?;
    }
    Ok(())
}

// Writes the words of all outputs, and says the lines.
fn deliver<F: Files, S: Say>(alloc: Global, files: &mut F, say: &mut S, answer: &Answer) -> Status
    requires { CanWrite answer.now.outputs answer.now.words }
    ensures ends { (result ≡ Status.Done) ⊎ ((result ≡ Status.WriteFault) ⊎ (result ≡ Status.NoMemory)) }
    ensures only { ChangesOnlyOutputs answer.now.outputs (F.held files.old) (F.held files.new) }
    ensures read_quiet { F.read_faults files.new ≡ F.read_faults files.old }
    ensures written { result ≡ Status.Done → IsSome (F.held files.old)
        → AllZip (HoldsLines (F.held files.new)) answer.now.outputs answer.now.words }
    ensures said { result ≡ Status.Done → S.said say.new ≡ said_more (S.said say.old) answer.now.lines.items }
    ensures silent { result ≡ Status.NoMemory → S.said say.new ≡ S.said say.old }
    ensures write_quiet { (result ≡ Status.WriteFault → ⊥) → F.write_faults files.new ≡ F.write_faults files.old }
    ensures say_quiet { (result ≡ Status.WriteFault → ⊥) → S.say_faults say.new ≡ S.say_faults say.old }
    ensures fault { result ≡ Status.WriteFault → WriteFailed
        (F.write_faults files.old) (F.write_faults files.new)
        (S.say_faults say.old) (S.say_faults say.new) (S.said say.old) (S.said say.new) }
{
    match write_outputs(
        alloc,
        files,
        answer.outputs.as_slice(),
        answer.words.as_slice(),
    ) {
        Ok(()) => confirm(say, &answer.lines),
        Err(WordError::WriteFault) => Status::WriteFault,
        Err(_) => Status::NoMemory,
    }
}

/// Writes the words that the stream equations of a project say of a run, and says where the run is
/// first unguarded, and first unbalanced at the times of a report.
pub fn run_expect<F: Files, S: Say>(
    alloc: Global,
    files: &mut F,
    say: &mut S,
    names: Expect<'_>,
) -> Status
    ensures usage { result ≡ Status.Usage → ⊥ }
    ensures no_edges { result ≡ Status.EdgeLimit → ⊥ }

    // `Done`: the output files hold the words that the stream equations say, and what was said is where the run is first
    // unguarded and first unbalanced.
    ensures done { result ≡ Status.Done → IsSome (F.held files.old)
        → IsExpectDone (expect_told names.entry) (F.held files.old) (F.held files.new) (S.said say.old) (S.said say.new) }

    // `Refused` comes exactly where a cause stands, and `Done` where none does, unless a call fails or memory is short.
    ensures refused { result ≡ Status.Refused
        → IsExpectRefused (expect_told names.entry) (F.held files.old) (S.said say.old) (S.said say.new) }
    ensures stands { (cause : Cause) → ExpectStands (expect_told names.entry) (F.held files.old) cause
        → (result ≡ Status.Refused) ⊎ IsCutOff result }
    ensures expected { CanExpect (expect_told names.entry) (F.held files.old) → (result ≡ Status.Done) ⊎ IsCutOff result }

    // `ReadFault` comes only where the count of read faults rose or a file that is to be read isn't held, and always there.
    ensures read_fault { result ≡ Status.ReadFault
        → Rose (F.read_faults files.old) (F.read_faults files.new)
        ⊎ LacksExpected (expect_told names.entry) (F.held files.old) }
    ensures missing { LacksExpected (expect_told names.entry) (F.held files.old)
        → (result ≡ Status.ReadFault) ⊎ (result ≡ Status.NoMemory) }
    ensures missing_quiet { Lacks (F.held files.old) names.entry.check.source.now
        → F.read_faults files.new ≡ F.read_faults files.old }

    // `WriteFault` comes only where one call of writing or saying failed, and no call was made after it.
    ensures write_fault { result ≡ Status.WriteFault → WriteFailed
        (F.write_faults files.old) (F.write_faults files.new)
        (S.say_faults say.old) (S.say_faults say.new) (S.said say.old) (S.said say.new) }
    ensures write_fault_reads { result ≡ Status.WriteFault → F.read_faults files.new ≡ F.read_faults files.old }
    ensures read_fault_writes { result ≡ Status.ReadFault →
        (F.write_faults files.new ≡ F.write_faults files.old)
        × (S.say_faults say.new ≡ S.say_faults say.old) }
    ensures quiet { IsQuiet result →
        (F.read_faults files.new ≡ F.read_faults files.old)
        × (F.write_faults files.new ≡ F.write_faults files.old)
        × (S.say_faults say.new ≡ S.say_faults say.old) }
    ensures silent { IsSilent result → S.said say.new ≡ S.said say.old }

    // No file changes but where all were read and none refused, and then the output files alone.
    ensures files_same { WritesNothing result → F.held files.new ≡ F.held files.old }
    ensures others { IsSome (F.held files.old)
        → ChangesExpected (expect_told names.entry) (F.held files.old) (F.held files.new) }
{
    match answer_files(alloc, files, names) {
        Ok(answer) => deliver(alloc, files, say, &answer),
        Err(stop) => say_stop(alloc, say, stop),
    }
}
