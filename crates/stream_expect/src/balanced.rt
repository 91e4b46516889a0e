// Where a run is first unbalanced.
ghost use Rattle.std.specs.Prelude.{◌≡◌, length, IfOk};
ghost use Rattle.std.specs.Option.{option_map};
ghost use Rattle.manager_links.specs.Links.{AreLinksOf};
ghost use Rattle.manager_links.specs.Starts.{AreTimes};
ghost use Rattle.project_streams.specs.Balanced.{IsBalancedBut};
ghost use Rattle.project_streams.specs.Streams.{GivenProject};
ghost use Rattle.project_words.specs.Words.{values_of, HaveTicks};
ghost use Rattle.stream_expect.specs.Expected.{fault_of};
ghost use Rattle.stream_expect.specs.Ports.{AreFew};

use crate::UnbalancedLink;
use crate::port::port_run;
use link_balance::first_fault;
use manager_links::{Links, Project};
use mx_base::{List, NoMemory};
use project_words::ProjectWords;
use std::alloc::Global;

/// The first link that is dry or full in the run in which nothing waits, by link, then edge, then
/// dry before full, or `None` where none is in any tick.
pub(crate) fn unbalanced_link(
    alloc: Global,
    project: &Project,
    times: &[List<i64>],
    links: &Links,
    words: &ProjectWords,
) -> Result<Option<UnbalancedLink>, NoMemory>
    requires times { AreTimes project.now.kernels times.now }
    requires links { AreLinksOf project.now times.now links.now }
    requires kernels { length words.now.kernels ≡ length project.now.kernels }
    requires few { AreFew project.now.kernels words.now }
    ensures { IfOk result (λ fault. (given : GivenProject) → HaveTicks given words.now
        → IsBalancedBut project.now times.now links.now given (values_of words.now)
        (option_map fault_of fault)) }
{
    let starts = links.starts.as_slice();
    for (number, link) in links.links.as_slice().iter().enumerate() {
        let producer = port_run(alloc, project, times, starts, words, link.from)?;
        let consumer = port_run(alloc, project, times, starts, words, link.to)?;
        if let Some(fault) = first_fault(&producer, &consumer, link.depth) {
            return Ok(Some(UnbalancedLink {
                link: number as u32,
                side: fault.side,
                tick: fault.tick,
            }));
        }
    }
    Ok(None)
}
