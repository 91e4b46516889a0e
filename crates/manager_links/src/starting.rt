// When the kernels of a project start, and how deep its links are.
ghost use Rattle.std.specs.Prelude.{◌≡◌, ◌+◌, ◌≤◌, ◌<◌, ◌^◌, map, length, All, slice_index, IsSome, IfOk, IfErr};
ghost use Rattle.manager_links.specs.Links.{AreLinksOf, IsWithinLimit, SaysTooDeep, MayBeTooDeep};
ghost use Rattle.manager_links.specs.Ports as Ports;
ghost use Rattle.manager_links.specs.Ports.{node_of};
ghost use Rattle.manager_links.specs.Starts as Starts;
ghost use Rattle.manager_links.specs.Starts.{AreTimes, AreLegal, AreStarts};
ghost use Rattle.manager_links.specs.Waiting as Waiting;
ghost use Rattle.manager_links.specs.Waiting.{IsTimedPort, IsTimedLink, AreRising, AreSmall, AreSmallNumbers, AreKnownLinks, number_at, deep_link};

use crate::{Link, LinkEnds, LinkError, Links, PortAt, Project};
use cycle_find::{Arc, Arcs, SolveError, solve};
use mx_base::{List, NoMemory};
use std::alloc::Global;
use stream_graph::{Kernel, NodeId};

/// A link may hold at most so many words.
const MOST_WORDS: u64 = 65_536;

/// A link with a control at one of its ends holds so many words.
const CONTROLLED_WORDS: u64 = 512;

// The time of a port's node.
fn time_of(times: &[List<i64>], port: PortAt) -> i64
    requires { IsTimedPort times.now port }
    ensures { result ≡ number_at times.now port }
{
    *times[port.kernel as usize].at(port.node as usize)
}

// That the words of a link can be read an edge after they are written.
fn arc_of(times: &[List<i64>], link: LinkEnds) -> Arc
    requires { IsTimedLink times.now link }
    ensures { result ≡ Waiting.arc_of times.now link }
{
    Arc {
        from: link.from.kernel,
        to: link.to.kernel,
        need: time_of(times, link.from) + 1 - time_of(times, link.to),
    }
}

// For each link, that its words can be read an edge after they are written.
fn arcs_of(
    alloc: Global,
    links: &[LinkEnds],
    times: &[List<i64>],
    kernels: u32,
) -> Result<Arcs, NoMemory>
    requires { All (IsTimedLink times.now) links.now }
    ensures nodes { IfOk result (λ arcs. arcs.nodes ≡ kernels) }
    ensures list { IfOk result (λ arcs. arcs.list ≡ map (Waiting.arc_of times.now) links.now) }
{
    let mut list = List::new(alloc);
    for link in links {
        list.push(arc_of(times, *link))?;
    }
    Ok(Arcs {
        nodes: kernels,
        list,
    })
}

// The least starts of so many kernels with these links, which have no loop.
fn least_starts(
    alloc: Global,
    links: &[LinkEnds],
    times: &[List<i64>],
    kernels: u32,
) -> Result<List<u64>, NoMemory>
    requires timed { All (IsTimedLink times.now) links.now }
    requires lists { length times.now ≡ kernels }
    requires few { kernels ≤ 64 }
    requires count { length links.now < 2 ^ 32 }
    requires rising { AreRising links.now }
    ensures starts { IfOk result (AreStarts times.now kernels links.now) }
    ensures small { IfOk result AreSmall }
{
    let arcs = arcs_of(alloc, links, times, kernels)?;
    match solve(alloc, &arcs) {
        Ok(least) => Ok(one_later(alloc, least.as_slice())?),
        Err(SolveError::Cycle(_)) => unreachable!("no kernels are linked in a loop"),
        Err(SolveError::NoMemory) => Err(NoMemory),
    }
}

// Each of these numbers and one.
fn one_later(alloc: Global, numbers: &[i64]) -> Result<List<u64>, NoMemory>
    requires { AreSmallNumbers numbers.now }
    ensures { IfOk result (λ starts. starts ≡ map Waiting.one_later numbers.now) }
{
    let mut starts = List::new(alloc);
    for number in numbers {
        starts.push(*number as u64 + 1)?;
    }
    Ok(starts)
}

// The edge in which a port is in tick 0.
fn first_edge(times: &[List<i64>], starts: &[u64], port: PortAt) -> u64
    requires timed { IsTimedPort times.now port }
    requires kernel { port.kernel < length starts.now }
    requires small { AreSmall starts.now }
    ensures { result ≡ Starts.first_edge times.now (slice_index starts.now) port }
{
    starts[port.kernel as usize] + time_of(times, port) as u64
}

// Whether a port has a control.
fn is_controlled(kernels: &[Kernel], port: PortAt) -> bool
    requires { IsSome (node_of kernels.now port) }
    ensures { result ≡ Ports.is_controlled kernels.now port }
{
    let kernel = &kernels[port.kernel as usize];
    kernel.node(NodeId::new(port.node)).controlled
}

// How many words a link holds.
fn depth_of(kernels: &[Kernel], times: &[List<i64>], starts: &[u64], link: LinkEnds) -> u64
    requires from { IsSome (node_of kernels.now link.from) }
    requires to { IsSome (node_of kernels.now link.to) }
    requires timed { IsTimedLink times.now link }
    requires kernels { length starts.now ≡ length times.now }
    requires small { AreSmall starts.now }
    requires legal { Starts.first_edge times.now (slice_index starts.now) link.from + 1
        ≤ Starts.first_edge times.now (slice_index starts.now) link.to }
    ensures { result ≡ Starts.depth_of kernels.now times.now (slice_index starts.now) link }
{
    if is_controlled(kernels, link.from) || is_controlled(kernels, link.to) {
        return CONTROLLED_WORDS;
    }
    first_edge(times, starts, link.to) - first_edge(times, starts, link.from) + 1
}

// The links with their depths, where none is too deep.
fn deep_links(
    alloc: Global,
    kernels: &[Kernel],
    links: &[LinkEnds],
    times: &[List<i64>],
    starts: &[u64],
) -> Result<List<Link>, LinkError>
    requires known { AreKnownLinks kernels.now times.now links.now }
    requires kernels { length starts.now ≡ length times.now }
    requires small { AreSmall starts.now }
    requires legal { AreLegal times.now (length kernels.now) links.now (slice_index starts.now) }
    requires count { length links.now < 2 ^ 32 }
    ensures links { IfOk result (λ made.
        made ≡ map (deep_link kernels.now times.now starts.now) links.now) }
    ensures within { IfOk result (All IsWithinLimit) }
    ensures err { IfErr result
        (SaysTooDeep (map (deep_link kernels.now times.now starts.now) links.now)) }
{
    let mut made = List::new(alloc);
    for (number, link) in links.iter().enumerate() {
        let words = depth_of(kernels, times, starts, *link);
        if words > MOST_WORDS {
            return Err(LinkError::LinkTooDeep(number as u32, words));
        }
        made.push(Link {
            from: link.from,
            to: link.to,
            depth: words as u32,
        })?;
    }
    Ok(made)
}

/// The least starts of a project's kernels at these times, and the links with their depths. There
/// is a list of times for each kernel, in the order of the project, whose first numbers are the
/// times of the kernel's nodes, in node order, from 0 to 2^46. It is refused where a link would
/// hold more than 65,536 words, by the first such link.
pub fn starts(alloc: Global, project: &Project, times: &[List<i64>]) -> Result<Links, LinkError>
    requires { AreTimes project.now.kernels times.now }
    ensures links { IfOk result (AreLinksOf project.now times.now) }
    ensures within { IfOk result (λ made. All IsWithinLimit made.links) }
    ensures err { IfErr result (MayBeTooDeep project.now times.now) }
{
    let kernels = project.kernels();
    let ends = project.links();
    let starts = least_starts(alloc, ends, times, kernels.len() as u32)?;
    let links = deep_links(alloc, kernels, ends, times, starts.as_slice())?;
    Ok(Links { starts, links })
}
