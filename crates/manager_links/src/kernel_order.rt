// An order of the kernels in which each stands behind those that it is linked from.
ghost use Rattle.std.specs.Prelude.{◌≡◌, ℕ, ◌<◌, ◌≤◌, [], List, map, length, replicate, All, slice_index_or, IfOk, IfErr};
ghost use Rattle.manager_links.specs.Loops.{AreOrdered};
ghost use Rattle.manager_links.specs.Ordering.{GoWithin, sources_of, SaysLoop};
ghost use Rattle.manager_links.specs.Terminals as Ended;

use crate::ends::kernel_name;
use crate::{LinkEnds, LinkError};
use digraph::{Found, Order, Row, rank};
use mx_base::{List, NoMemory, Text};
use std::alloc::Global;
use stream_graph::Kernel;

// So many empty lists.
fn empty_lists(alloc: Global, count: usize) -> Result<Vec<List<u32>>, NoMemory>
    ensures { IfOk result (λ lists. lists.items ≡ replicate count []) }
{
    let mut lists = Vec::new(alloc);
    for _kernel in 0..count {
        lists.push(List::new(alloc))?;
    }
    Ok(lists)
}

// For each kernel those that it is linked from, in the order of the links.
fn sources(alloc: Global, links: &[LinkEnds], count: usize) -> Result<Vec<List<u32>>, NoMemory>
    requires { GoWithin count links.now }
    ensures count { IfOk result (λ lists. length lists.items ≡ count) }
    ensures sources { IfOk result (λ lists. (kernel : ℕ) → kernel < count
        → slice_index_or lists.items kernel [] ≡ sources_of kernel links.now) }
{
    let mut lists = empty_lists(alloc, count)?;
    for link in links {
        lists[link.to.kernel as usize].push(link.from.kernel)?;
    }
    Ok(lists)
}

// Lists as the rows of a graph.
fn rows_of(alloc: Global, lists: Vec<List<u32>>) -> Result<Vec<Row<u32>>, NoMemory>
    ensures { IfOk result (λ rows. rows.items ≡ lists.items) }
{
    let mut rows = Vec::new(alloc);
    for list in lists {
        rows.push(Row::own(list))?;
    }
    Ok(rows)
}

// The names of these kernels.
fn names_of(alloc: Global, kernels: &[Kernel], numbers: &[u32]) -> Result<List<Text>, NoMemory>
    requires { All (λ number. number < length kernels.now) numbers.now }
    ensures { IfOk result (λ names. names ≡ map (Ended.kernel_name kernels.now) numbers.now) }
{
    let mut names = List::new(alloc);
    for number in numbers {
        names.push(kernel_name(alloc, kernels, *number)?)?;
    }
    Ok(names)
}

/// An order of the kernels in which each stands behind those that it is linked from.
pub(crate) fn order_of(
    alloc: Global,
    kernels: &[Kernel],
    links: &[LinkEnds],
) -> Result<Order, LinkError>
    requires few { length kernels.now ≤ 64 }
    requires within { GoWithin (length kernels.now) links.now }
    ensures ok { IfOk result (λ order.
        AreOrdered (length kernels.now) links.now order.nodes.items order.rank.items) }
    ensures err { IfErr result (SaysLoop kernels.now links.now) }
{
    let graph = rows_of(alloc, sources(alloc, links, kernels.len())?)?;
    match rank(alloc, graph.as_slice())? {
        Found::Ranks(order) => Ok(order),
        Found::Walk(walk) => {
            let names = names_of(alloc, kernels, walk.as_slice())?;
            Err(LinkError::KernelLoop(names))
        }
    }
}
