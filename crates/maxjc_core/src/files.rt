// Reading the files of a command.
ghost use Rattle.std.specs.Prelude.{◌≡◌, ◌≤◌, ◌<◌, ◌⊎◌, List, ℕ, Err, IfOk, IfErr, length};
ghost use Rattle.mx_base.specs.Counts.{Rose};
ghost use Rattle.mx_base.specs.Files.{Holds, Lacks};
ghost use Rattle.maxjc_core.specs.CauseLines.{TooLarge};
ghost use Rattle.maxjc_core.specs.CompileStops.{IfRefused};

use crate::refusal::Refusal;
use crate::stop::Stop;
use mx_base::{Files, ReadError, Text, read_whole};
use std::alloc::Global;

/// The most bytes of a Verilog text.
pub const TEXT_LIMIT: u64 = 1 << 26;

/// The most bytes of every other file that is read whole.
pub const FILE_LIMIT: u64 = 1 << 24;

/// Reads one file whole. `Refused` where it has more bytes than the limit.
pub fn read_file<'a, F: Files>(
    alloc: Global,
    files: &mut F,
    name: &'a Text,
    limit: u64,
) -> Result<Vec<u8>, Stop<'a>>
    ensures same { F.held files.new ≡ F.held files.old }
    ensures quiet { (result ≡ Err Stop.ReadFault → ⊥) → F.read_faults files.new ≡ F.read_faults files.old }
    ensures write_quiet { F.write_faults files.new ≡ F.write_faults files.old }
    ensures fault { result ≡ Err Stop.ReadFault
        → Rose (F.read_faults files.old) (F.read_faults files.new)
        ⊎ Lacks (F.held files.old) name.entry.now }
    ensures lacking { Lacks (F.held files.old) name.entry.now → result ≡ Err Stop.ReadFault }
    ensures lacking_quiet { Lacks (F.held files.old) name.entry.now → F.read_faults files.new ≡ F.read_faults files.old }
    ensures refused { IfErr result (λ stop. IfRefused stop (λ cause. cause ≡ TooLarge name.entry.now)) }
    ensures too_large { (file : List ℕ) → Holds (F.held files.old) name.entry.now file
        → IfErr result (λ stop. IfRefused stop (λ _. limit < length file)) }
    ensures whole { (file : List ℕ) → Holds (F.held files.old) name.entry.now file → IfOk result (λ bytes. bytes.items ≡ file) }
    ensures fits { IfOk result (λ bytes. length bytes.items ≤ limit) }
{
    match read_whole(alloc, files, name, limit) {
        Ok(bytes) => Ok(bytes),
        Err(ReadError::ReadFault) => Err(Stop::ReadFault),
        Err(ReadError::TooLarge) => Err(Stop::Refused(Refusal::TooLarge(name))),
        Err(ReadError::NoMemory) => Err(Stop::NoMemory),
    }
}
