// The command `check`.
ghost use Rattle.std.specs.Prelude.{◌≡◌, ◌⊎◌, IsSome};
ghost use Rattle.mx_base.specs.Counts.{Rose};
ghost use Rattle.mx_base.specs.Files.{Lacks};
ghost use Rattle.maxjc_core.specs.CauseLines.{Cause};
ghost use Rattle.maxjc_core.specs.CheckCauses.{CheckStands, LacksChecked};
ghost use Rattle.maxjc_core.specs.Checking.{IsGood};
ghost use Rattle.maxjc_core.specs.CheckEnds.{IsCheckDone, IsCheckRefused};
ghost use Rattle.maxjc_core.specs.NamedCommand.{check_told};
ghost use Rattle.maxjc_core.specs.CommandEnds.{IsQuiet, IsSilent, IsCutOff};

use crate::Status;
use crate::check::check;
use crate::command::Check;
use crate::saying::{confirm, say_stop};
use mx_base::{Files, Say};
use std::alloc::Global;

/// Checks a report on a project: reads their files, judges the report, and says what it shows. It
/// changes no file.
pub fn run_check<F: Files, S: Say>(
    alloc: Global,
    files: &mut F,
    say: &mut S,
    names: Check<'_>,
) -> Status
    ensures usage { result ≡ Status.Usage → ⊥ }
    ensures no_edges { result ≡ Status.EdgeLimit → ⊥ }

    // `Done`: the report's parts are shown for the kernels that the source builds, and their bits are what was said.
    ensures done { result ≡ Status.Done → IsSome (F.held files.old)
        → IsCheckDone (check_told names.entry) (F.held files.old) (S.said say.old) (S.said say.new) }

    // `Refused` comes exactly where a cause stands, unless a call fails or memory is short.
    ensures refused { result ≡ Status.Refused → IsCheckRefused (check_told names.entry) (F.held files.old) (S.said say.old) (S.said say.new) }
    ensures stands { (cause : Cause) → CheckStands (check_told names.entry) (F.held files.old) cause → (result ≡ Status.Refused) ⊎ IsCutOff result }
    ensures checked { IsGood (check_told names.entry) (F.held files.old) → (result ≡ Status.Done) ⊎ IsCutOff result }

    // `ReadFault` comes only where the count of read faults rose or a file that is read isn't held, and always there.
    ensures read_fault { result ≡ Status.ReadFault
        → Rose (F.read_faults files.old) (F.read_faults files.new)
        ⊎ LacksChecked (check_told names.entry) (F.held files.old) }
    ensures missing { LacksChecked (check_told names.entry) (F.held files.old) → (result ≡ Status.ReadFault) ⊎ (result ≡ Status.NoMemory) }
    ensures missing_quiet { Lacks (F.held files.old) names.entry.source.now → F.read_faults files.new ≡ F.read_faults files.old }

    // `WriteFault` comes only where saying failed.
    ensures write_fault { result ≡ Status.WriteFault → Rose (S.say_faults say.old) (S.say_faults say.new) }
    ensures write_fault_reads { result ≡ Status.WriteFault → F.read_faults files.new ≡ F.read_faults files.old }
    ensures read_fault_says { result ≡ Status.ReadFault → S.say_faults say.new ≡ S.say_faults say.old }

    ensures quiet { IsQuiet result →
        (F.read_faults files.new ≡ F.read_faults files.old)
        × (S.say_faults say.new ≡ S.say_faults say.old) }
    ensures silent { IsSilent result → S.said say.new ≡ S.said say.old }

    // No file is changed, and none is to be written.
    ensures files_same { F.held files.new ≡ F.held files.old }
    ensures no_writes { F.write_faults files.new ≡ F.write_faults files.old }
{
    match check(alloc, files, names) {
        Ok(line) => confirm(say, &line),
        Err(stop) => say_stop(alloc, say, stop),
    }
}
