// The kernel that a building run makes.
ghost use Rattle.std.specs.Prelude.{◌≡◌, map, All, IsTrue};
ghost use Rattle.kernel_calls.specs.Laws.{is_port_name};
ghost use Rattle.kernel_meaning.specs.Constructors.{building_run, value_of_arg};
ghost use Rattle.maxj_syntax.specs.Tree.{ClassTree};
ghost use Rattle.maxj_syntax.specs.Ranges.{AreInRange};
ghost use Rattle.kernel_eval.specs.Built.{IsBuilt};
ghost use Rattle.kernel_eval.specs.Runs.{IsKernelAt, IsTyped};

use crate::kernel::eval;
use kernel_meaning::{Arg, EvalError};
use maxj_syntax::Program;
use mx_base::Text;
use std::alloc::Global;
use stream_graph::{Graph, GraphError, Kernel, Tally};

/// Why a class has no kernel.
#[derive(Debug, Drop)]
pub enum BuildError {
    /// E1 to E15: the constructor's run is refused.
    Eval(EvalError),
    /// G1 to G4 and G6: what the run makes is no kernel.
    Graph(GraphError),
}

/// The kernel of this name that a kernel's class builds with these arguments after the first one, or
/// why there is none.
///
/// The constructor runs twice: once for what it makes to be counted, and once for a graph with room
/// for just that. The errors are those of the run, and then those of the graph; want of memory alone
/// says nothing.
pub fn build_kernel(
    alloc: Global,
    program: &Program<'_>,
    class: u32,
    args: &[Arg],
    name: Text,
) -> Result<Kernel, BuildError>
    requires kernel { (kernel : ClassTree) × IsKernelAt program.now class kernel }
    requires within { AreInRange program.now.tree }
    requires typed { All IsTyped args.now }
    requires name { IsTrue (is_port_name name) }
    ensures { (kernel : ClassTree) → IsKernelAt program.now class kernel
        → IsBuilt (building_run kernel (map value_of_arg args.now)) name result }
{
    let mut tally = Tally::new();
    if let Err(error) = eval(alloc, program, class, args, &mut tally) {
        return Err(BuildError::Eval(error));
    }
    let Ok(mut graph) = Graph::reserve(alloc, &tally) else {
        return Err(BuildError::Eval(EvalError::NoMemory));
    };
    if let Err(error) = eval(alloc, program, class, args, &mut graph) {
        return Err(BuildError::Eval(error));
    }
    match graph.finish(alloc, name) {
        Ok(kernel) => Ok(kernel),
        Err(error) => Err(BuildError::Graph(error)),
    }
}
