// The project of a kernel that stands alone.
ghost use Rattle.std.specs.Prelude.{◌≡◌, ◌∷◌, [], map, IfOk};
ghost use Rattle.kernel_meaning.specs.declared.plan.Made.{Made as OneMade};
ghost use Rattle.manager_links.specs.Plans.{IsWholePlan};

use kernel_meaning::{Made, Plan};
use manager_links::{Project, starts};
use mx_base::{List, NoMemory, Text};
use std::alloc::Global;
use std::test::Fail;
use stream_graph::{Graph, Tally};

// The plan of a source that has this class alone.
fn plan(alloc: Global, name: &[u8]) -> Result<Plan, NoMemory>
    ensures whole { IfOk result IsWholePlan }
    ensures named { IfOk result (λ plan.
        map (λ (made : OneMade). made.name) plan.kernels ≡ name.now ∷ []) }
{
    let mut kernels = List::new(alloc);
    kernels.push(Made {
        name: Text::from_vec(name.to_vec(alloc)?),
        class: 0,
        args: List::new(alloc),
    })?;
    Ok(Plan {
        manager: false,
        kernels,
        from_cpu: List::new(alloc),
        to_cpu: List::new(alloc),
        joins: List::new(alloc),
    })
}

#[test]
fn a_kernel_alone(rt: HostRuntime) -> Result<(), Fail> {
    let alloc = rt.alloc();
    let name = b"Idle".as_slice();
    let graph = Graph::reserve(alloc, &Tally::new())?;
    let mut kernels = Vec::new(alloc);
    kernels.push(graph.finish(alloc, Text::from_vec(name.to_vec(alloc)?))?)?;
    let project = Project::join(alloc, kernels, plan(alloc, name)?)?;
    assert!(rt; project.kernels().len() == 1);
    assert!(rt; project.kernels()[0].name() == name);
    assert!(rt; !project.plan().manager);
    let times = vec![in alloc; List::new(alloc)]?;
    let links = starts(alloc, &project, times.as_slice())?;
    assert!(rt; links.starts.as_slice() == [1].as_slice());
    assert!(rt; links.links.len() == 0);
    Ok(())
}
