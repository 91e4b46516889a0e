// What a run of the stream equations begins with.
ghost use Rattle.std.specs.Prelude.{◌≡◌, ◌<◌, ◌≤◌, ◌^◌, ℕ, List, All, true, Err, IfOk, IfErr, OnOk, length};
ghost use Rattle.kernel_calls.specs.Laws.{is_port_name};
ghost use Rattle.project_rtl.specs.Shapes.{shape_of};
ghost use Rattle.project_words.specs.Given.{word_count};
ghost use Rattle.stream_graph.specs.declared.kernel.Kernel.{Kernel};
ghost use Rattle.maxjc_core.specs.ExpectCauses.{HaveTooMany, IsOfExpect};
ghost use Rattle.maxjc_core.specs.ExpectStops.{BeginsAs, FitsPorts, LinksAs};
ghost use Rattle.maxjc_core.specs.RunFiles.{IsPlanOfBytes, HasNoPlan};
ghost use Rattle.maxjc_core.specs.CompileStops.{IfRefused};

use crate::linked::{Linked, link_project};
use crate::refusal::Refusal;
use crate::run_file::plan_of_bytes;
use crate::stop::Stop;
use manager_links::Project;
use project_ports::project_ports;
use simulation::Plan;
use std::alloc::Global;
use stream_expect::excess_words;

/// A project with its links, and what its run is handed.
#[derive(Drop)]
pub struct Begun {
    pub linked: Linked,
    pub plan: Plan,
}

// What the bytes of a run file hand to a run of a project, where they fit its ports.
fn plan_of_project<'a>(alloc: Global, project: &Project, run: &[u8]) -> Result<Plan, Stop<'a>>
    requires names { All (λ (kernel : Kernel). is_port_name kernel.name ≡ true) project.now.kernels }
    ensures planned { IfOk result (IsPlanOfBytes run.now (shape_of project.now)) }
    ensures fits { IfOk result (FitsPorts project.now) }
    ensures refused { IfErr result (λ stop. IfRefused stop (HasNoPlan run.now (shape_of project.now))) }
    ensures no_read { result ≡ Err Stop.ReadFault → ⊥ }
{
    let ports = project_ports(alloc, project)?;
    plan_of_bytes(alloc, &ports, run)
}

// Tests how many words the kernels of a project have in so many ticks each.
fn test_words<'a>(project: &Project, ticks: &[u64]) -> Result<(), Stop<'a>>
    requires { length ticks.now ≡ length project.now.kernels }
    ensures few { OnOk result (word_count project.now.kernels ticks.now ≤ 2 ^ 24) }
    ensures refused { IfErr result (λ stop. IfRefused stop (HaveTooMany project.now.kernels ticks.now)) }
    ensures no_read { result ≡ Err Stop.ReadFault → ⊥ }
{
    match excess_words(project.kernels(), ticks) {
        None => Ok(()),
        Some(words) => Err(Stop::Refused(Refusal::TooManyWords(words))),
    }
}

// What the bytes of a run file hand to a run of a linked project, where they fit its ports and the
// run has few words. Apart from `begin`, which owns the project, so that no error here drops it.
fn plan_of_linked<'a>(alloc: Global, linked: &Linked, run: &[u8]) -> Result<Plan, Stop<'a>>
    requires names { All (λ (kernel : Kernel). is_port_name kernel.name ≡ true)
        linked.now.project.kernels }
    ensures begins { (source table report : List ℕ) → LinksAs source table report linked.now
        → IfOk result (λ plan. BeginsAs source table report run.now
        (record { linked = linked.now; plan = plan })) }
    ensures fits { IfOk result (FitsPorts linked.now.project) }
    ensures refused { (source table report : List ℕ) → LinksAs source table report linked.now
        → IfErr result (λ stop. IfRefused stop (IsOfExpect source table report run.now)) }
    ensures no_read { result ≡ Err Stop.ReadFault → ⊥ }
{
    let plan = match plan_of_project(alloc, &linked.project, run) {
        Ok(plan) => plan,
        Err(stop) => return Err(stop),
    };
    match test_words(&linked.project, plan.ticks.as_slice()) {
        Ok(()) => Ok(plan),
        Err(stop) => Err(stop),
    }
}

/// What the run begins with that these bytes say, or why they are refused.
pub fn begin<'a>(
    alloc: Global,
    source: &[u8],
    table: &[u8],
    report: &[u8],
    run: &[u8],
) -> Result<Begun, Stop<'a>>
    requires { length source.now < 2 ^ 32 }
    ensures begins { IfOk result (BeginsAs source.now table.now report.now run.now) }
    ensures fits { IfOk result (λ begun. FitsPorts begun.linked.project begun.plan) }
    ensures refused { IfErr result (λ stop. IfRefused stop
        (IsOfExpect source.now table.now report.now run.now)) }
    ensures no_read { result ≡ Err Stop.ReadFault → ⊥ }
{
    match link_project(alloc, source, table, report) {
        Ok(linked) => match plan_of_linked(alloc, &linked, run) {
            Ok(plan) => Ok(Begun { linked, plan }),
            Err(stop) => Err(stop),
        },
        Err(stop) => Err(stop),
    }
}
