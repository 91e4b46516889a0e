// Reads the words of the input files of a run.
ghost use Rattle.std.specs.Prelude.{◌≡◌, ◌⊎◌, ◌<◌, ℕ, All, Some, Err, IfOk, IfErr, length, IsSome};
ghost use Rattle.std.specs.List.{AllZip};
ghost use Rattle.manager_links.specs.declared.hosts.HostPort.{HostPort as Host};
ghost use Rattle.mx_base.specs.Counts.{Rose};
ghost use Rattle.mx_base.specs.Files.{Name};
ghost use Rattle.simulation.specs.Errors.{stop_of};
ghost use Rattle.word_files.specs.declared.error.WordError.TheVariants.{ReadFault, WriteFault};
ghost use Rattle.maxjc_core.specs.ExpectStops.{AreWithin, IsWordWidth};
ghost use Rattle.maxjc_core.specs.InputWords.{readings_of, reading_of, HasWords, HaveWords, IsLineFault, IsFirstLineFault, LacksLine, LacksWords};
ghost use Rattle.maxjc_core.specs.ErrorCauses.{stop_cause};
ghost use Rattle.maxjc_core.specs.CompileStops.{IfRefused};

use crate::refusal::Refusal;
use crate::stop::Stop;
use manager_links::HostPort;
use mx_base::{Files, List, Text};
use simulation::{Plan, Stop as RunStop};
use std::alloc::Global;
use word_files::WordError;
use word_lists::read_words;

// What a file stops with whose words can't be read.
fn words_stop<'a>(error: WordError) -> Stop<'a>
    requires { error ≡ WriteFault → ⊥ }
    ensures cause { IfRefused result (λ cause. stop_cause (stop_of error) ≡ Some cause) }
    ensures fault { error ≡ ReadFault → result ≡ Stop.ReadFault }
    ensures only { result ≡ Stop.ReadFault → error ≡ ReadFault }
{
    match error {
        WordError::ReadFault => Stop::ReadFault,
        WordError::NoMemory => Stop::NoMemory,
        fault => Stop::Refused(Refusal::Run(RunStop::from(fault))),
    }
}

// The words of the first `most` lines of a file, or why it has none. Where no line is to be read, the
// file need not be held.
fn words_of_file<'a, F: Files>(
    alloc: Global,
    files: &mut F,
    file: &(Text, u8),
    most: u64,
) -> Result<List<u128>, Stop<'a>>
    requires { IsWordWidth file.now.1 }
    ensures same { F.held files.new ≡ F.held files.old }
    ensures quiet { (result ≡ Err Stop.ReadFault → ⊥) → F.read_faults files.new ≡ F.read_faults files.old }
    ensures write_quiet { F.write_faults files.new ≡ F.write_faults files.old }
    ensures fault { result ≡ Err Stop.ReadFault
        → Rose (F.read_faults files.old) (F.read_faults files.new)
        ⊎ LacksLine (F.held files.old) (reading_of file.now most) }
    ensures missing { LacksLine (F.held files.old) (reading_of file.now most)
        → (result ≡ Err Stop.ReadFault) ⊎ (result ≡ Err Stop.NoMemory) }
    ensures words { IfOk result (λ words. IsSome (F.held files.old)
        → HasWords (F.held files.old) (reading_of file.now most) words) }
    ensures within { IfOk result (AreWithin (reading_of file.now most)) }
    ensures refused { IfErr result (λ stop. IfRefused stop (λ cause. IsSome (F.held files.old)
        → IsLineFault (F.held files.old) (reading_of file.now most) cause)) }
{
    if most == 0 {
        return Ok(List::new(alloc));
    }
    let (name, width) = file;
    match read_words(alloc, files, name, *width, most) {
        Ok(words) => Ok(words),
        Err(error) => Err(words_stop(error)),
    }
}

/// The words of the input files of a run, whose words go to the ports of these streams, or the
/// first cause for which one has none: of each file the lines are read of as many words as the
/// kernel has ticks that reads it. It changes no file.
pub fn input_words<'a, F: Files>(
    alloc: Global,
    files: &mut F,
    hosts: &[HostPort],
    plan: &Plan,
) -> Result<List<List<u128>>, Stop<'a>>
    requires each { length plan.now.inputs ≡ length hosts.now }
    requires widths { All (λ (file : Name × ℕ). IsWordWidth file.1) plan.now.inputs }
    requires ticks { All (λ (host : Host). host.port.kernel < length plan.now.ticks) hosts.now }
    ensures same { F.held files.new ≡ F.held files.old }
    ensures quiet { (result ≡ Err Stop.ReadFault → ⊥) → F.read_faults files.new ≡ F.read_faults files.old }
    ensures write_quiet { F.write_faults files.new ≡ F.write_faults files.old }
    ensures fault { result ≡ Err Stop.ReadFault
        → Rose (F.read_faults files.old) (F.read_faults files.new)
        ⊎ LacksWords (F.held files.old) (readings_of plan.now.ticks hosts.now plan.now.inputs) }
    ensures missing { LacksWords (F.held files.old) (readings_of plan.now.ticks hosts.now plan.now.inputs)
        → (result ≡ Err Stop.ReadFault) ⊎ (result ≡ Err Stop.NoMemory) }
    ensures words { IfOk result (λ lists. IsSome (F.held files.old)
        → HaveWords (F.held files.old) (readings_of plan.now.ticks hosts.now plan.now.inputs) lists) }
    ensures within { IfOk result
        (AllZip AreWithin (readings_of plan.now.ticks hosts.now plan.now.inputs)) }
    ensures refused { IfErr result (λ stop. IfRefused stop (λ cause. IsSome (F.held files.old)
        → IsFirstLineFault (F.held files.old)
        (readings_of plan.now.ticks hosts.now plan.now.inputs) cause)) }
{
    let mut lists = List::new(alloc);
    for (number, host) in hosts.iter().enumerate() {
        let most = *plan.ticks.at(host.port.kernel as usize);
        match words_of_file(alloc, files, plan.inputs.at(number), most) {
            Ok(words) => lists.push(words)?,
            Err(stop) => return Err(stop),
        }
    }
    Ok(lists)
}
