// The words of the streams to the CPU.
ghost use Rattle.std.specs.Prelude.{◌≡◌, ◌<◌, length, map, IfOk};
ghost use Rattle.manager_links.specs.declared.hosts.HostPort.{HostPort as Host};
ghost use Rattle.project_streams.specs.Streams as Streams;
ghost use Rattle.project_streams.specs.Streams.{GivenProject, nodes_at};
ghost use Rattle.project_words.specs.Words.{values_of, HaveTicks};

use kernel_words::port_words;
use manager_links::{PortAt, Project};
use mx_base::{List, NoMemory};
use project_words::ProjectWords;
use std::alloc::Global;
use stream_graph::NodeId;

/// The words of each stream to the CPU.
pub(crate) fn output_words(
    alloc: Global,
    project: &Project,
    words: &ProjectWords,
) -> Result<List<List<Option<u128>>>, NoMemory>
    requires { length words.now.kernels ≡ length project.now.kernels }
    ensures { IfOk result (λ outputs. (given : GivenProject) → HaveTicks given words.now
        → outputs ≡ map (λ (host : Host).
        Streams.words_of project.now.kernels given (values_of words.now) host.port)
        project.now.joints.outputs) }
{
    let mut outputs = List::new(alloc);
    for host in project.outputs() {
        outputs.push(words_of(alloc, project, words, host.port)?)?;
    }
    Ok(outputs)
}

// The words of an output of a kernel.
fn words_of(
    alloc: Global,
    project: &Project,
    words: &ProjectWords,
    port: PortAt,
) -> Result<List<Option<u128>>, NoMemory>
    requires kernels { length words.now.kernels ≡ length project.now.kernels }
    requires node { port.node < length (nodes_at project.now.kernels port.kernel) }
    ensures { IfOk result (λ list. (given : GivenProject) → HaveTicks given words.now
        → list ≡ Streams.words_of project.now.kernels given (values_of words.now) port) }
{
    let kernel = &project.kernels()[port.kernel as usize];
    let streams = words.of(port.kernel as usize);
    let list = port_words(alloc, kernel, streams, NodeId::new(port.node))?;
    Ok(List::from_vec(list))
}
