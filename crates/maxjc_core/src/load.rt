// Reads a text and a run file that fits its design. No file is changed here.
ghost use Rattle.std.specs.Prelude.{◌≡◌, ◌⊎◌, ◌<◌, ◌^◌, ℕ, Some, Err, IfOk, IfErr, length, map};
ghost use Rattle.mx_base.specs.Counts.{Rose};
ghost use Rattle.mx_base.specs.Files.{Lacks, Name};
ghost use Rattle.rtl_ir.specs.declared.design.Design.{Design};
ghost use Rattle.rtl_ir.specs.declared.design.Module.{Module};
ghost use Rattle.rtl_ir.specs.Flat.{top_of};
ghost use Rattle.rtl_ir.specs.Interfaces.{IsInterface};
ghost use Rattle.rtl_ir.specs.Ports.{Shape};
ghost use Rattle.rtl_ir.specs.Rules.{AllDiffer};
ghost use Rattle.simulation.specs.Plans.{FitsShape, AreApart};
ghost use Rattle.top_ports.specs.Shapes.{IsTop};
ghost use Rattle.verilog_read.specs.Refused.{Refuses, IsReadAs};
ghost use Rattle.verilog_read.specs.declared.error.VerilogError.{VerilogError};
ghost use Rattle.maxjc_core.specs.CauseLines.{Cause};
ghost use Rattle.maxjc_core.specs.Loading.{IsLoaded, FitTogether};
ghost use Rattle.maxjc_core.specs.LoadStops.{LoadAnswers, CanRun, FitAs, IsOnlyDesign};
ghost use Rattle.maxjc_core.specs.NamedCommand.{run_told};
ghost use Rattle.maxjc_core.specs.RunFiles.{IsPlanOfBytes, HasNoPlan};
ghost use Rattle.maxjc_core.specs.SimulateCauses.{IsFaulty, BreaksForm, LacksFile, text_cause};
ghost use Rattle.maxjc_core.specs.CompileStops.{IfRefused};

use crate::command::Simulate;
use crate::files::{FILE_LIMIT, TEXT_LIMIT, read_file};
use crate::refusal::Refusal;
use crate::run_file::plan_of_bytes;
use crate::stop::Stop;
use mx_base::Files;
use rtl_ir::{Design, Interface, Module};
use simulation::Plan;
use std::alloc::Global;
use top_ports::interface;
use verilog_read::{VerilogError, read};

/// A design, the ports of its top module, and what its run is handed.
#[derive(Drop)]
pub struct Loaded {
    pub design: Design,
    pub ports: Interface,
    pub plan: Plan,
}

// The design of a text.
fn design_of<'a>(alloc: Global, text: &[u8]) -> Result<Design, Stop<'a>>
    requires { length text.now < 2 ^ 32 }
    ensures read { IfOk result (λ d. IsReadAs text.now d) }
    ensures only { IfOk result (λ d. IsOnlyDesign text.now d) }
    ensures every { (d : Design) → IsReadAs text.now d → IfErr result (λ stop. IfRefused stop (λ _. ⊥)) }
    ensures exact { (e : VerilogError) → Refuses text.now e → IfOk result (λ _. ⊥) }
    ensures refused { IfErr result (λ stop. IfRefused stop (λ cause. (e : VerilogError) × Refuses text.now e × (text_cause e ≡ Some cause))) }
    ensures no_fault { result ≡ Err Stop.ReadFault → ⊥ }
{
    match read(alloc, text) {
        Ok(design) => Ok(design),
        Err(error) => match error {
            VerilogError::NoMemory => Err(Stop::NoMemory),
            fault => Err(Stop::Refused(Refusal::Verilog(fault))),
        },
    }
}

// The top module of a design, which is the last one.
fn top(design: &Design) -> &Module
    requires { (m : Module) × (top_of design.now ≡ Some m) }
    ensures { top_of design.now ≡ Some result.now }
{
    design.modules.at(design.modules.len() - 1)
}

// The ports of a top module, and the plan of a run file that fits them. Apart from `build`, which
// owns the design, so that no error here drops it.
fn ports_and_plan<'a>(
    alloc: Global,
    top: &Module,
    run: &[u8],
) -> Result<(Interface, Plan), Stop<'a>>
    requires { (s : Shape) × IsTop top.now s }
    ensures is { IfOk result (λ made. IsInterface top.now made.0) }
    ensures planned { (s : Shape) → IsTop top.now s → IfOk result (λ made. IsPlanOfBytes run.now s made.1) }
    ensures fits { (s : Shape) → IsTop top.now s → IfOk result (λ made. FitsShape made.1 s) }
    ensures apart { (s : Shape) → IsTop top.now s → AllDiffer (map (λ (y : Name × ℕ). y.0) s.outputs)
        → IfOk result (λ made. AreApart made.1) }
    ensures refused { (s : Shape) → IsTop top.now s
        → IfErr result (λ stop. IfRefused stop (HasNoPlan run.now s)) }
    ensures no_fault { result ≡ Err Stop.ReadFault → ⊥ }
{
    let ports = interface(alloc, top)?;
    match plan_of_bytes(alloc, &ports, run) {
        Ok(plan) => Ok((ports, plan)),
        Err(stop) => Err(stop),
    }
}

// The design of a text and the plan of a run file that fits it.
fn build<'a>(alloc: Global, text: &[u8], run: &[u8]) -> Result<Loaded, Stop<'a>>
    requires { length text.now < 2 ^ 32 }
    ensures fit { IfOk result (λ l. FitAs text.now run.now l.design l.plan) }
    ensures can_run { IfOk result (λ l. CanRun l.design l.plan) }
    ensures ports { IfOk result (λ l. (m : Module) → top_of l.design ≡ Some m → IsInterface m l.ports) }
    ensures refused { IfErr result (λ stop. IfRefused stop (BreaksForm text.now run.now)) }
    ensures faulty { (cause : Cause) → BreaksForm text.now run.now cause → IfOk result (λ _. ⊥) }
    ensures loads { FitTogether text.now run.now → IfErr result (λ stop. IfRefused stop (λ _. ⊥)) }
    ensures no_fault { result ≡ Err Stop.ReadFault → ⊥ }
{
    let design = match design_of(alloc, text) {
        Ok(design) => design,
        Err(stop) => return Err(stop),
    };
    match ports_and_plan(alloc, top(&design), run) {
        Ok((ports, plan)) => Ok(Loaded {
            design,
            ports,
            plan,
        }),
        Err(stop) => Err(stop),
    }
}

/// Reads a text and a run file that fits its design. It changes no file.
pub fn load<'a, F: Files>(
    alloc: Global,
    files: &mut F,
    names: Simulate<'a>,
) -> Result<Loaded, Stop<'a>>
    ensures same { F.held files.new ≡ F.held files.old }
    ensures quiet { (result ≡ Err Stop.ReadFault → ⊥) → F.read_faults files.new ≡ F.read_faults files.old }
    ensures write_quiet { F.write_faults files.new ≡ F.write_faults files.old }

    // A read fails only where its count rose or the file isn't held, and a text that isn't held is no fault.
    ensures fault { result ≡ Err Stop.ReadFault
        → Rose (F.read_faults files.old) (F.read_faults files.new)
        ⊎ LacksFile (run_told names.entry) (F.held files.old) }
    ensures missing { LacksFile (run_told names.entry) (F.held files.old) → (result ≡ Err Stop.ReadFault) ⊎ (result ≡ Err Stop.NoMemory) }
    ensures missing_quiet { Lacks (F.held files.old) names.entry.text.now → F.read_faults files.new ≡ F.read_faults files.old }

    ensures answers { LoadAnswers (run_told names.entry) (F.held files.old) result }
    ensures can_run { IfOk result (λ l. CanRun l.design l.plan) }
    ensures ports { IfOk result (λ l. (m : Module) → top_of l.design ≡ Some m → IsInterface m l.ports) }
    ensures faulty { (cause : Cause) → IsFaulty (run_told names.entry) (F.held files.old) cause → IfOk result (λ _. ⊥) }
    ensures loads { IsLoaded (run_told names.entry) (F.held files.old) → IfErr result (λ stop. IfRefused stop (λ _. ⊥)) }
{
    let text = match read_file(alloc, files, names.text, TEXT_LIMIT) {
        Ok(text) => text,
        Err(stop) => return Err(stop),
    };
    match read_file(alloc, files, names.run, FILE_LIMIT) {
        Ok(run) => build(alloc, text.as_slice(), run.as_slice()),
        Err(stop) => Err(stop),
    }
}
