// The lines that a command says.
ghost use Rattle.std.specs.Prelude.{◌≡◌, ◌⊎◌};
ghost use Rattle.mx_base.specs.Counts.{Rose};
ghost use Rattle.maxjc_core.specs.Command.{usage_line, said_more};
ghost use Rattle.maxjc_core.specs.CauseLines.{line_of};
ghost use Rattle.maxjc_core.specs.ErrorCauses.{cause_told, IfCause};
ghost use Rattle.maxjc_core.specs.CommandEnds.{IsCutOff, IsSilent};
ghost use Rattle.maxjc_core.specs.CompileStops.{IfRefused};
ghost use Rattle.maxjc_core.specs.declared.refusal.Refusal.{Refusal};

use crate::Status;
use crate::refusal::Refusal;
use crate::stop::Stop;
use mx_base::Say;
use std::alloc::Global;

const USAGE: &[u8] =
    b"usage: compile SRC TABLE OUT REPORT | simulate TEXT RUN | expect SRC TABLE REPORT RUN | check SRC TABLE REPORT | generate N\n";

/// Says the usage line.
pub fn say_usage<S: Say>(say: &mut S) -> Status
    ensures ends { (result ≡ Status.Usage) ⊎ (result ≡ Status.WriteFault) }
    ensures said { result ≡ Status.Usage → S.said say.new ≡ said_more (S.said say.old) usage_line }
    ensures quiet { result ≡ Status.Usage → S.say_faults say.new ≡ S.say_faults say.old }
    ensures fault { result ≡ Status.WriteFault → Rose (S.say_faults say.old) (S.say_faults say.new) }
{
    match say.say(USAGE) {
        Ok(()) => Status::Usage,
        Err(_) => Status::WriteFault,
    }
}

/// Says what a command that did its work has to say.
pub fn confirm<S: Say>(say: &mut S, line: &[u8]) -> Status
    ensures ends { (result ≡ Status.Done) ⊎ (result ≡ Status.WriteFault) }
    ensures said { result ≡ Status.Done → S.said say.new ≡ said_more (S.said say.old) line.now }
    ensures quiet { result ≡ Status.Done → S.say_faults say.new ≡ S.say_faults say.old }
    ensures fault { result ≡ Status.WriteFault → Rose (S.say_faults say.old) (S.say_faults say.new) }
{
    match say.say(line) {
        Ok(()) => Status::Done,
        Err(_) => Status::WriteFault,
    }
}

/// Says why the files of a command are refused.
pub fn refuse<S: Say>(alloc: Global, say: &mut S, refusal: &Refusal<'_>) -> Status
    ensures ends { (result ≡ Status.Refused) ⊎ ((result ≡ Status.WriteFault) ⊎ (result ≡ Status.NoMemory)) }
    ensures said { result ≡ Status.Refused → IfCause (cause_told refusal.now) (λ cause. S.said say.new ≡ said_more (S.said say.old) (line_of cause)) }
    ensures quiet { result ≡ Status.Refused → S.say_faults say.new ≡ S.say_faults say.old }
    ensures silent { result ≡ Status.NoMemory → (S.said say.new ≡ S.said say.old) × (S.say_faults say.new ≡ S.say_faults say.old) }
    ensures fault { result ≡ Status.WriteFault → Rose (S.say_faults say.old) (S.say_faults say.new) }
{
    match refusal.line(alloc) {
        Err(_) => Status::NoMemory,
        Ok(line) => match say.say(&line) {
            Ok(()) => Status::Refused,
            Err(_) => Status::WriteFault,
        },
    }
}

/// Says why the files of a command are refused, where that stopped it before it wrote.
pub fn say_stop<S: Say>(alloc: Global, say: &mut S, stop: Stop<'_>) -> Status
    ensures ends { (result ≡ Status.Refused)
        ⊎ ((result ≡ Status.ReadFault) ⊎ ((result ≡ Status.WriteFault) ⊎ (result ≡ Status.NoMemory))) }
    ensures refused { result ≡ Status.Refused
        → (refusal : Refusal) × (stop.entry ≡ Stop.Refused refusal) × IfCause (cause_told refusal)
        (λ cause. S.said say.new ≡ said_more (S.said say.old) (line_of cause)) }
    ensures never { IfRefused stop.entry (λ _. ⊥) → IsCutOff result }
    ensures read_fault { result ≡ Status.ReadFault → stop.entry ≡ Stop.ReadFault }
    ensures reads { stop.entry ≡ Stop.ReadFault → result ≡ Status.ReadFault }
    ensures no_memory { stop.entry ≡ Stop.NoMemory → result ≡ Status.NoMemory }
    ensures quiet { (result ≡ Status.WriteFault → ⊥) → S.say_faults say.new ≡ S.say_faults say.old }
    ensures silent { IsSilent result → S.said say.new ≡ S.said say.old }
    ensures fault { result ≡ Status.WriteFault → Rose (S.say_faults say.old) (S.say_faults say.new) }
{
    match stop {
        Stop::Refused(refusal) => refuse(alloc, say, &refusal),
        Stop::ReadFault => Status::ReadFault,
        Stop::NoMemory => Status::NoMemory,
    }
}
