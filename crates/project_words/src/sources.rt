// The words that come to the inputs of a kernel.
ghost use Rattle.std.specs.Prelude.{◌≡◌, ◌<◌, All, length, map, Some, IfOk};
ghost use Rattle.manager_links.specs.declared.hosts.HostPort.{HostPort as Host};
ghost use Rattle.project_streams.specs.Streams.{GivenProject, nodes_at, words_of};
ghost use Rattle.project_words.specs.Given.{given_of, IsGiven};
ghost use Rattle.project_words.specs.Open.{IsDone, AreFed, AreKnown, known_ticks, settled_values};
ghost use Rattle.project_words.specs.Sources.{AreFromHosts, AreFrom, FitNodes};

use crate::ProjectRun;
use crate::open::done_at;
use kernel_words::{Streams, port_words};
use manager_links::{HostPort, PortAt, Project};
use mx_base::{List, NoMemory};
use std::alloc::Global;
use stream_graph::NodeId;

/// The words that come to the nodes of a kernel, a list for each node: of an input that is linked
/// those of its output, and of another one those of its stream from the CPU.
pub(crate) fn sources_of(
    alloc: Global,
    project: &Project,
    run: &ProjectRun,
    settled: &[Option<Streams>],
    kernel: u32,
) -> Result<Vec<List<Option<u128>>>, NoMemory>
    requires kernel { kernel < length project.now.kernels }
    requires given { IsGiven project.now run.now }
    requires size { length settled.now ≡ length project.now.kernels }
    requires known { AreKnown project.now (given_of run.now) settled.now }
    requires fed { AreFed project.now.joints.links settled.now kernel }
    ensures nodes { IfOk result (λ sources.
        length sources.items ≡ length (nodes_at project.now.kernels kernel)) }
    ensures from { IfOk result (λ sources.
        AreFrom project.now (given_of run.now) (settled_values settled.now) kernel 0
        sources.items) }
    ensures fit { IfOk result (λ sources.
        FitNodes (nodes_at project.now.kernels kernel) sources.items) }
{
    let nodes = project.kernels()[kernel as usize].count() as usize;
    let mut sources = from_hosts(alloc, project.inputs(), run.words.as_slice(), kernel, nodes)?;
    let links = project.links();
    let mut number = links.len();
    while number > 0 {
        number -= 1;
        let link = links[number];
        if link.to.kernel == kernel {
            let words = output_words(alloc, project, settled, link.from)?;
            sources[link.to.node as usize] = words;
        }
    }
    Ok(sources)
}

// The words of an output of a kernel whose words are known.
fn output_words(
    alloc: Global,
    project: &Project,
    settled: &[Option<Streams>],
    port: PortAt,
) -> Result<List<Option<u128>>, NoMemory>
    requires done { IsDone settled.now port.kernel }
    requires size { length settled.now ≡ length project.now.kernels }
    requires node { port.node < length (nodes_at project.now.kernels port.kernel) }
    ensures { IfOk result (λ words. (given : GivenProject)
        → given.ticks port.kernel ≡ known_ticks settled.now port.kernel
        → words ≡ words_of project.now.kernels given (settled_values settled.now) port) }
{
    let kernel = &project.kernels()[port.kernel as usize];
    let streams = done_at(settled, port.kernel as usize);
    let words = port_words(alloc, kernel, streams, NodeId::new(port.node))?;
    Ok(List::from_vec(words))
}

// The words of the streams from the CPU that go to the nodes of a kernel, a list for each node.
fn from_hosts(
    alloc: Global,
    hosts: &[HostPort],
    words: &[List<u128>],
    kernel: u32,
    nodes: usize,
) -> Result<Vec<List<Option<u128>>>, NoMemory>
    requires lists { length words.now ≡ length hosts.now }
    requires nodes { All (λ (host : Host).
        host.port.kernel ≡ kernel → host.port.node < nodes) hosts.now }
    ensures nodes { IfOk result (λ sources. length sources.items ≡ nodes) }
    ensures from { IfOk result (λ sources.
        AreFromHosts hosts.now words.now kernel 0 sources.items) }
{
    let mut sources = Vec::new(alloc);
    for _ in 0..nodes {
        sources.push(List::new(alloc))?;
    }
    let mut number = hosts.len();
    while number > 0 {
        number -= 1;
        let port = hosts[number].port;
        if port.kernel == kernel {
            let list = defined(alloc, words[number].as_slice())?;
            sources[port.node as usize] = list;
        }
    }
    Ok(sources)
}

// Words that are all defined.
fn defined(alloc: Global, words: &[u128]) -> Result<List<Option<u128>>, NoMemory>
    ensures { IfOk result (λ list. list ≡ map Some words.now) }
{
    let mut list = List::new(alloc);
    for word in words {
        list.push(Some(*word))?;
    }
    Ok(list)
}
