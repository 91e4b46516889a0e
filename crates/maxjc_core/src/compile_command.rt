// The command `compile`.
ghost use Rattle.std.specs.Prelude.{◌≡◌, ◌≢◌, ◌⊎◌, ◌++◌, None, Some, List, ℕ, IsSome, OnOk, OnErr};
ghost use Rattle.mx_base.specs.Counts.{Rose, Counts};
ghost use Rattle.mx_base.specs.Files.{Holds, Lacks, ChangesOnly};
ghost use Rattle.maxjc_core.specs.Command.{Names, said_more};
ghost use Rattle.maxjc_core.specs.CauseLines.{Cause};
ghost use Rattle.maxjc_core.specs.CompileCauses.{Stands, IsMissing, IsBuilt};
ghost use Rattle.maxjc_core.specs.NamedCommand.{names_told};
ghost use Rattle.maxjc_core.specs.CommandEnds.{IsQuiet, KeepsFiles, IsSilent, IsCutOff, WriteFailed, IsDone, IsRefused};
ghost use Rattle.maxjc_core.specs.CompileFiles.{ChangesBoth, LeavesInOrder, LeavesCutOff};

use crate::Status;
use crate::command::Compile;
use crate::compile::{Compiled, compile};
use crate::saying::say_stop;
use mx_base::{Failed, Files, Say, Text};
use std::alloc::Global;

// Writes a file whole. No memory is taken here.
fn write_file<F: Files>(files: &mut F, name: &Text, bytes: &[u8]) -> Result<(), Failed>
    ensures only { ChangesOnly name.now (F.held files.old) (F.held files.new) }
    ensures written { OnOk result (IsSome (F.held files.old) → Holds (F.held files.new) name.now bytes.now) }
    ensures read_quiet { F.read_faults files.new ≡ F.read_faults files.old }
    ensures quiet { OnOk result (F.write_faults files.new ≡ F.write_faults files.old) }
    ensures fault { OnErr result (Rose (F.write_faults files.old) (F.write_faults files.new)) }
{
    files.create(name)?;
    files.append(name, bytes)
}

// Writes the text, then the report, and says the summary. No memory is taken here.
fn deliver<F: Files, S: Say>(
    files: &mut F,
    say: &mut S,
    output: &Text,
    report: &Text,
    compiled: &Compiled,
) -> Status
    requires apart { output.now ≢ report.now }
    ensures ends { (result ≡ Status.Done) ⊎ (result ≡ Status.WriteFault) }
    ensures only { ChangesBoth output.now report.now (F.held files.old) (F.held files.new) }
    ensures read_quiet { F.read_faults files.new ≡ F.read_faults files.old }
    ensures written { result ≡ Status.Done → IsSome (F.held files.old)
        → Holds (F.held files.new) output.now compiled.now.text.items
        × Holds (F.held files.new) report.now compiled.now.report.items }
    ensures in_order { IsSome (F.held files.old)
        → LeavesInOrder output.now report.now compiled.now.text.items (F.held files.old) (F.held files.new) }
    ensures said { result ≡ Status.Done → S.said say.new ≡ said_more (S.said say.old) compiled.now.summary.items }
    ensures write_quiet { result ≡ Status.Done → F.write_faults files.new ≡ F.write_faults files.old }
    ensures say_quiet { result ≡ Status.Done → S.say_faults say.new ≡ S.say_faults say.old }
    ensures fault { result ≡ Status.WriteFault → WriteFailed
        (F.write_faults files.old) (F.write_faults files.new)
        (S.say_faults say.old) (S.say_faults say.new) (S.said say.old) (S.said say.new) }
{
    let Ok(()) = write_file(files, output, &compiled.text) else {
        return Status::WriteFault;
    };
    let Ok(()) = write_file(files, report, &compiled.report) else {
        return Status::WriteFault;
    };
    match say.say(&compiled.summary) {
        Ok(()) => Status::Done,
        Err(_) => Status::WriteFault,
    }
}

/// Compiles a project: reads its files, writes the text and the report, and says the summary.
pub fn run_compile<F: Files, S: Say>(
    alloc: Global,
    files: &mut F,
    say: &mut S,
    names: Compile<'_>,
) -> Status
    requires apart { names.output.now ≢ names.report.now }
    ensures usage { result ≡ Status.Usage → ⊥ }
    ensures no_edges { result ≡ Status.EdgeLimit → ⊥ }

    // `Done`: the output holds a text of a design of the project that the source builds, the report's file holds a report on
    // the schedules of its kernels, and the summary is what was said.
    ensures done { result ≡ Status.Done → IsSome (F.held files.old)
        → IsDone (names_told names.entry) (F.held files.old) (F.held files.new) (S.said say.old) (S.said say.new) }

    // `Refused` comes exactly where a cause stands, unless a call fails or memory is short.
    ensures refused { result ≡ Status.Refused → IsRefused (names_told names.entry) (F.held files.old) (S.said say.old) (S.said say.new) }
    ensures stands { (cause : Cause) → Stands (names_told names.entry) (F.held files.old) cause → (result ≡ Status.Refused) ⊎ IsCutOff result }
    ensures built { IsBuilt (names_told names.entry) (F.held files.old) → (result ≡ Status.Done) ⊎ IsCutOff result }

    // `ReadFault` comes only where the count of read faults rose or a file that is read isn't held, and always there.
    ensures read_fault { result ≡ Status.ReadFault
        → Rose (F.read_faults files.old) (F.read_faults files.new)
        ⊎ IsMissing names.entry.source.now names.entry.table.now (F.held files.old) }
    ensures missing { IsMissing names.entry.source.now names.entry.table.now (F.held files.old) → (result ≡ Status.ReadFault) ⊎ (result ≡ Status.NoMemory) }
    ensures missing_quiet { Lacks (F.held files.old) names.entry.source.now → F.read_faults files.new ≡ F.read_faults files.old }

    // `WriteFault` comes only where one call of writing or saying failed, and no call was made after it.
    ensures write_fault { result ≡ Status.WriteFault → WriteFailed
        (F.write_faults files.old) (F.write_faults files.new)
        (S.say_faults say.old) (S.say_faults say.new) (S.said say.old) (S.said say.new) }
    ensures write_fault_reads { result ≡ Status.WriteFault → F.read_faults files.new ≡ F.read_faults files.old }
    ensures read_fault_writes { result ≡ Status.ReadFault →
        (F.write_faults files.new ≡ F.write_faults files.old)
        × (S.say_faults say.new ≡ S.say_faults say.old) }

    ensures quiet { IsQuiet result →
        (F.read_faults files.new ≡ F.read_faults files.old)
        × (F.write_faults files.new ≡ F.write_faults files.old)
        × (S.say_faults say.new ≡ S.say_faults say.old) }
    ensures silent { IsSilent result → S.said say.new ≡ S.said say.old }

    // Only `Done` and `WriteFault` change a file, and that is the output or the report: all memory is taken before either is
    // created. The report is created when the output has been written.
    ensures files_same { KeepsFiles result → F.held files.new ≡ F.held files.old }
    ensures others { ChangesBoth names.entry.output.now names.entry.report.now (F.held files.old) (F.held files.new) }
    ensures cut_off { result ≡ Status.WriteFault → IsSome (F.held files.old)
        → LeavesCutOff (names_told names.entry) (F.held files.old) (F.held files.new) }
{
    match compile(alloc, files, names) {
        Ok(compiled) => deliver(files, say, names.output, names.report, &compiled),
        Err(stop) => say_stop(alloc, say, stop),
    }
}
