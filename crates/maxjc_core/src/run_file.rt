// What a run file says, and what it hands to a run beside ports.
ghost use Rattle.std.specs.Prelude.{◌≡◌, ℕ, Ok, Err, IfOk, OnOk, IfErr, map};
ghost use Rattle.mx_base.specs.Files.{Name};
ghost use Rattle.rtl_ir.specs.Interfaces.{shape_of};
ghost use Rattle.rtl_ir.specs.Rules.{AllDiffer};
ghost use Rattle.serde_json.specs.Data.{Data};
ghost use Rattle.simulation.specs.Plans.{FitsShape, AreApart};
ghost use Rattle.word_files.specs.RunFiles.{Reads, IsRunFile, Fits};
ghost use Rattle.maxjc_core.specs.RunFiles.{IsRunFault, IsPlanned, IsPlanOfBytes, IsUnfit, IsUnfitFor, HasNoPlan};
ghost use Rattle.maxjc_core.specs.CompileStops.{IfRefused};

use crate::refusal::Refusal;
use crate::stop::Stop;
use rtl_ir::Interface;
use simulation::{Plan, plan_of};
use std::alloc::Global;
use word_files::{RunFile, RunFileError};

// What the bytes of a run file say.
fn run_of<'a>(alloc: Global, bytes: &[u8]) -> Result<RunFile, Stop<'a>>
    ensures read { IfOk result (λ run. Reads bytes.now (Ok run)) }
    ensures refused { IfErr result (λ stop. IfRefused stop (IsRunFault bytes.now)) }
    ensures no_fault { result ≡ Err Stop.ReadFault → ⊥ }
{
    match RunFile::read(alloc, bytes) {
        Ok(run) => Ok(run),
        Err(error) => match error {
            RunFileError::NoMemory => Err(Stop::NoMemory),
            fault => Err(Stop::Refused(Refusal::RunFile(fault))),
        },
    }
}

// Tests a run file beside ports.
fn fit_for<'a>(alloc: Global, run: &RunFile, ports: &Interface) -> Result<(), Stop<'a>>
    ensures fits { OnOk result (Fits run.now ports.now (Ok tt)) }
    ensures unfit { IfErr result (λ stop. IfRefused stop (IsUnfitFor run.now ports.now)) }
    ensures no_fault { result ≡ Err Stop.ReadFault → ⊥ }
{
    match run.fit(alloc, ports) {
        Ok(()) => Ok(()),
        Err(error) => match error {
            RunFileError::NoMemory => Err(Stop::NoMemory),
            fault => Err(Stop::Refused(Refusal::RunFile(fault))),
        },
    }
}

// What a run file hands to a run, where it fits the ports.
fn plan_for<'a>(alloc: Global, ports: &Interface, run: &RunFile) -> Result<Plan, Stop<'a>>
    ensures planned { IfOk result (λ plan. IsPlanned run.now (shape_of ports.now) plan) }
    ensures unfit { IfErr result (λ stop. IfRefused stop (IsUnfit run.now (shape_of ports.now))) }
    ensures fits { (d : Data) → IsRunFile d run.now → IfOk result (λ plan. FitsShape plan (shape_of ports.now)) }
    ensures apart { (d : Data) → IsRunFile d run.now
        → AllDiffer (map (λ (y : Name × ℕ). y.0) (shape_of ports.now).outputs) → IfOk result (λ plan. AreApart plan) }
    ensures no_fault { result ≡ Err Stop.ReadFault → ⊥ }
{
    match fit_for(alloc, run, ports) {
        Ok(()) => Ok(plan_of(alloc, run, ports)?),
        Err(stop) => Err(stop),
    }
}

/// What the bytes of a run file hand to a run, where they fit the ports.
pub fn plan_of_bytes<'a>(alloc: Global, ports: &Interface, bytes: &[u8]) -> Result<Plan, Stop<'a>>
    ensures planned { IfOk result (IsPlanOfBytes bytes.now (shape_of ports.now)) }
    ensures refused { IfErr result (λ stop. IfRefused stop (HasNoPlan bytes.now (shape_of ports.now))) }
    ensures fits { IfOk result (λ plan. FitsShape plan (shape_of ports.now)) }
    ensures apart { AllDiffer (map (λ (y : Name × ℕ). y.0) (shape_of ports.now).outputs)
        → IfOk result (λ plan. AreApart plan) }
    ensures no_fault { result ≡ Err Stop.ReadFault → ⊥ }
{
    match run_of(alloc, bytes) {
        Ok(run) => plan_for(alloc, ports, &run),
        Err(stop) => Err(stop),
    }
}
