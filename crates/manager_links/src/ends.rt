// The ends of joins, by the numbers of what they name.
ghost use Rattle.std.specs.Prelude.{◌≡◌, ◌<◌, true, if◌then◌else◌, nat_eq, length, IfOk, IfErr};
ghost use Rattle.std.specs.List.{AllZip};
ghost use Rattle.manager_links.specs.Joined.{is_of_kernel};
ghost use Rattle.manager_links.specs.Numbers.{Knows, AreEnds};
ghost use Rattle.manager_links.specs.Steps.{IsReady, IsOfThese, IsSaidAs, IsPortOfKernel, SaysUnknown};
ghost use Rattle.manager_links.specs.Terminals as Ended;
ghost use Rattle.manager_links.specs.Terminals.{terminals};

use crate::names::text_of;
use crate::terminals::Terminals;
use crate::{EndName, LinkError};
use kernel_meaning::{End, Plan};
use mx_base::{NoMemory, Text};
use std::alloc::Global;
use stream_graph::Kernel;

/// The numbers of what the two ends of a join name.
#[derive(Clone, Copy, PartialEq, Eq)]
pub(crate) struct Ends {
    pub left: usize,
    pub right: usize,
}

impl Ends {
    /// The number of the end that isn't this one.
    pub fn other(self, number: usize) -> usize
        ensures { result ≡ (if nat_eq self.left number then self.right else self.left) }
    {
        if self.left == number {
            self.right
        } else {
            self.left
        }
    }
}

/// The name of a kernel.
pub(crate) fn kernel_name(alloc: Global, kernels: &[Kernel], number: u32) -> Result<Text, NoMemory>
    requires { number < length kernels.now }
    ensures { IfOk result (λ name. name ≡ Ended.kernel_name kernels.now number) }
{
    text_of(alloc, kernels[number as usize].name())
}

/// An end of a join, by names.
pub(crate) fn end_name(alloc: Global, kernels: &[Kernel], end: &End) -> Result<EndName, NoMemory>
    requires { IsOfThese kernels.now end.now }
    ensures { IfOk result (IsSaidAs kernels.now end.now) }
{
    match end {
        End::Kernel(number, name) => Ok(EndName::Port(
            kernel_name(alloc, kernels, *number)?,
            name.copy(alloc)?,
        )),
        End::Cpu(name) => Ok(EndName::Cpu(name.copy(alloc)?)),
    }
}

// The refusal of an end that names a port which its kernel lacks.
fn unknown_port(alloc: Global, kernels: &[Kernel], end: &End) -> Result<LinkError, NoMemory>
    requires these { IsOfThese kernels.now end.now }
    requires port { is_of_kernel end.now ≡ true }
    ensures { IfOk result (IsPortOfKernel kernels.now end.now) }
{
    match end_name(alloc, kernels, end)? {
        EndName::Port(kernel, name) => Ok(LinkError::UnknownPort(kernel, name)),
        EndName::Cpu(_) => unreachable!("the end is a kernel's"),
    }
}

/// The numbers of the ends of each join, where all of them name something.
pub(crate) fn number_joins(
    alloc: Global,
    kernels: &[Kernel],
    plan: &Plan,
    known: &Terminals<'_>,
) -> Result<Vec<Ends>, LinkError>
    requires ready { IsReady plan.now kernels.now }
    requires known { Knows plan.now kernels.now (terminals plan.now kernels.now) known.now }
    ensures ok { IfOk result (λ ends.
        AllZip (AreEnds (terminals plan.now kernels.now)) plan.now.joins ends.items) }
    ensures err { IfErr result (SaysUnknown plan.now kernels.now) }
{
    let mut ends = Vec::new(alloc);
    for join in plan.joins.as_slice() {
        let Some(left) = known.left(&join.left) else {
            return Err(unknown_port(alloc, kernels, &join.left)?);
        };
        let Some(right) = known.right(&join.right) else {
            return Err(unknown_port(alloc, kernels, &join.right)?);
        };
        ends.push(Ends { left, right })?;
    }
    Ok(ends)
}
