// A port in the run in which nothing waits.
ghost use Rattle.std.specs.Prelude.{◌≡◌, ◌≤◌, ◌<◌, ◌^◌, false, length, ℕ, IfOk};
ghost use Rattle.std.specs.Prelude.{slice_index, slice_index_or};
ghost use Rattle.link_balance.specs.Ports.{port_of};
ghost use Rattle.kernel_words.specs.Streams as Kernels;
ghost use Rattle.manager_links.specs.Starts as Starts;
ghost use Rattle.manager_links.specs.Starts.{AreTimes};
ghost use Rattle.manager_links.specs.Waiting.{IsTimedPort, AreSmall};
ghost use Rattle.project_streams.specs.Ideal.{port_in};
ghost use Rattle.project_streams.specs.Streams.{GivenProject, nodes_at};
ghost use Rattle.project_words.specs.Words.{values_of, HaveTicks};
ghost use Rattle.stream_equations.specs.Equations.{enabled};
ghost use Rattle.stream_expect.specs.Ports.{AreFew, IsSamePort};

use kernel_words::{Streams, is_enabled};
use link_balance::PortRun;
use manager_links::{PortAt, Project};
use mx_base::{List, NoMemory};
use project_words::ProjectWords;
use std::alloc::Global;
use stream_graph::{Kernel, NodeId};

/// A port of a kernel that starts in the edge of its number, in the run in which nothing waits.
pub(crate) fn port_run(
    alloc: Global,
    project: &Project,
    times: &[List<i64>],
    starts: &[u64],
    words: &ProjectWords,
    port: PortAt,
) -> Result<PortRun, NoMemory>
    requires times { AreTimes project.now.kernels times.now }
    requires starts { length starts.now ≡ length project.now.kernels }
    requires small { AreSmall starts.now }
    requires kernels { length words.now.kernels ≡ length project.now.kernels }
    requires few { AreFew project.now.kernels words.now }
    requires node { port.node < length (nodes_at project.now.kernels port.kernel) }
    ensures { IfOk result (λ run. (given : GivenProject) → HaveTicks given words.now
        → IsSamePort (port_of run)
        (port_in project.now times.now (slice_index starts.now) given (values_of words.now) port)) }
{
    let kernel = &project.kernels()[port.kernel as usize];
    let streams = words.of(port.kernel as usize);
    Ok(PortRun {
        begin: first_edge(times, starts, port),
        due: due_ticks(alloc, kernel, streams, NodeId::new(port.node))?,
    })
}

// The edge in which a port is in tick 0.
fn first_edge(times: &[List<i64>], starts: &[u64], port: PortAt) -> u64
    requires timed { IsTimedPort times.now port }
    requires kernel { port.kernel < length starts.now }
    requires small { AreSmall starts.now }
    ensures is { result ≡ Starts.first_edge times.now (slice_index starts.now) port }
    ensures few { result ≤ 2 ^ 61 }
{
    let time = *times[port.kernel as usize].at(port.node as usize);
    starts[port.kernel as usize] + time as u64
}

// For each tick of a kernel whether a word is due at a port of it.
fn due_ticks(
    alloc: Global,
    kernel: &Kernel,
    streams: &Streams,
    port: NodeId,
) -> Result<List<bool>, NoMemory>
    requires node { port < length kernel.now.nodes }
    ensures ticks { IfOk result (λ due. length due ≡ streams.now.ticks) }
    ensures due { IfOk result (λ due. (t : ℕ) → t < streams.now.ticks
        → slice_index_or due t false
        ≡ enabled kernel.now.nodes (Kernels.values_of streams.now) port t) }
{
    let mut due = List::new(alloc);
    for tick in 0..streams.ticks() {
        due.push(is_enabled(kernel, streams, port, tick))?;
    }
    Ok(due)
}
