// The design of a project.
ghost use Rattle.std.specs.Prelude.{◌≡◌, length, IfOk};
ghost use Rattle.project_rtl.specs.Projects.{IsProjectOf};
ghost use Rattle.project_design.specs.Building.{AreMade};

use crate::fifos::fifos;
use crate::top::top;
use manager_links::{Links, Project};
use mx_base::{List, NoMemory};
use rtl_ir::{Design, Module};
use std::alloc::Global;

/// The design of a project around the modules of its kernels, which stand in its order: a FIFO for
/// each stream of the host, of two words, and for each link, as deep as the link, and the module
/// `top$project` that joins them. The links are those of `starts`.
///
/// The inputs of the top module are `clk` and `reset` of 1 bit; for each kernel K `hold$K` of 1 bit
/// and `ticks$K` of 48 bits; and `scalar$K$S` for each scalar S of K. A stream X from the host has
/// `in$X$data`, `in$X$valid` and `in$X$ready`, and a stream Y to it has `out$Y$data`, `out$Y$valid`
/// and `out$Y$ready`. The data and the scalars are as wide as the kernels' words, 1 to 128 bits, and
/// valid and ready have 1 bit. A word moves at a rising edge of `clk` where valid and ready are both
/// 1. The output `done` of 1 bit is 1 where all kernels have ended and no stream to the host is
/// valid.
///
/// The modules stand in this order: the FIFOs of the streams from the host, of those to it and of
/// the links, `fifo$0`, `fifo$1` and so on, then the modules of the kernels, and last the top
/// module, which has one instance of each (IEEE 1364-2005, 12.1.2).
///
/// The only error is `NoMemory`.
pub fn design(
    alloc: Global,
    project: &Project,
    links: &Links,
    inners: Vec<Module>,
) -> Result<Design, NoMemory>
    requires links { AreMade project.now links.now }
    requires kernels { length inners.items ≡ length project.now.kernels }
    ensures { IfOk result (IsProjectOf project.now links.now inners.items) }
{
    let mut modules = fifos(alloc, project, links)?;
    let mut inners = inners;
    modules.append(&mut inners)?;
    modules.push(top(alloc, project)?)?;
    Ok(Design {
        modules: List::from_vec(modules),
    })
}
