// The run of a project that a plan says.
ghost use Rattle.std.specs.Prelude.{◌≡◌, ◌+◌, ◌-◌, ◌≤◌, length, drop, take, IfOk, OnOk};
ghost use Rattle.std.specs.List.{AllZip, flat_map};
ghost use Rattle.kernel_control.specs.Ports.{scalars_of};
ghost use Rattle.project_rtl.specs.Shapes.{scalar_shapes};
ghost use Rattle.project_words.specs.Given.{given_of, IsGiven};
ghost use Rattle.maxjc_core.specs.Expecting.{IsGivenBy};
ghost use Rattle.maxjc_core.specs.ExpectStops.{AreNodeLists, AreNodeWords, AreWithin, FitsPorts};
ghost use Rattle.maxjc_core.specs.InputWords.{readings_of};

use manager_links::Project;
use mx_base::{List, NoMemory};
use project_words::ProjectRun;
use simulation::Plan;
use std::alloc::Global;
use stream_graph::{Kernel, Kind, NodeId};

// A word for each node of a kernel: of its scalars these, in node order from the place `next` on,
// and 0 of the others. The place is then the one behind them.
fn node_words(
    alloc: Global,
    kernel: &Kernel,
    scalars: &[u128],
    next: &mut usize,
) -> Result<List<u128>, NoMemory>
    requires { next.old + length (scalars_of kernel.now.nodes) ≤ length scalars.now }
    ensures next { OnOk result (next.new ≡ next.old + length (scalars_of kernel.now.nodes)) }
    ensures words { IfOk result (λ words.
        AreNodeWords kernel.now words (take (next.new - next.old) (drop next.old scalars.now))) }
{
    let mut words = List::new(alloc);
    for number in 0..kernel.count() {
        match kernel.node(NodeId::new(number)).kind {
            Kind::Scalar => {
                words.push(scalars[*next])?;
                *next += 1;
            }
            _ => words.push(0)?,
        }
    }
    Ok(words)
}

// Such words for each of these kernels, of the scalars of all of them.
fn all_node_words(
    alloc: Global,
    kernels: &[Kernel],
    scalars: &[u128],
) -> Result<List<List<u128>>, NoMemory>
    requires { length scalars.now ≡ length (flat_map scalar_shapes kernels.now) }
    ensures { IfOk result (λ lists. AreNodeLists kernels.now lists scalars.now) }
{
    let mut lists = List::new(alloc);
    let mut next = 0;
    for kernel in kernels {
        lists.push(node_words(alloc, kernel, scalars, &mut next)?)?;
    }
    Ok(lists)
}

/// The run of a project that a plan for its ports says, where the streams from the CPU have these
/// words.
pub fn run_of_plan(
    alloc: Global,
    project: &Project,
    plan: &Plan,
    words: List<List<u128>>,
) -> Result<ProjectRun, NoMemory>
    requires fits { FitsPorts project.now plan.now }
    requires within { AllZip AreWithin
        (readings_of plan.now.ticks project.now.joints.inputs plan.now.inputs) words }
    ensures gives { IfOk result (λ run. IsGivenBy project.now plan.now words (given_of run)) }
    ensures given { IfOk result (IsGiven project.now) }
    ensures ticks { IfOk result (λ run. run.ticks ≡ plan.now.ticks) }
{
    let ticks = plan.ticks.as_slice().to_vec(alloc)?;
    let scalars = all_node_words(alloc, project.kernels(), plan.scalars.as_slice())?;
    Ok(ProjectRun {
        ticks: List::from_vec(ticks),
        scalars,
        words,
    })
}
