// What the stream equations say of a run.
ghost use Rattle.std.specs.Prelude.{◌≡◌, ◌≤◌, ◌^◌, length, IfOk, IfErr, IfNone, IfSome};
ghost use Rattle.manager_links.specs.Links.{AreLinksOf};
ghost use Rattle.manager_links.specs.Starts.{AreTimes};
ghost use Rattle.project_words.specs.Given as Given;
ghost use Rattle.project_words.specs.Given.{given_of, AreCausal, IsGiven};
ghost use Rattle.stream_expect.specs.Expected.{IsExpectedOf};
ghost use Rattle.stream_expect.specs.Refused.{IsRefused, IsTooLarge};
ghost use Rattle.stream_expect.specs.Widths.{HaveHostWidths};

use crate::balanced::unbalanced_link;
use crate::guarded::unguarded_place;
use crate::outputs::output_words;
use crate::size::word_count;
use crate::{ExpectError, Expected};
use manager_links::{Links, Project};
use mx_base::List;
use project_words::{ProjectRun, project_words};
use std::alloc::Global;
use stream_graph::Kernel;

/// The kernels of a project have at most so many words in a run, 2^24.
const MOST_WORDS: u128 = 16_777_216;

/// How many words kernels have in so many ticks each, one for each node in each tick, where that is
/// more than 2^24: those runs that `expect` refuses, before their words are at hand.
pub fn excess_words(kernels: &[Kernel], ticks: &[u64]) -> Option<u128>
    requires few { length kernels.now ≤ 64 }
    requires each { length ticks.now ≡ length kernels.now }
    ensures many { IfSome result (IsTooLarge kernels.now ticks.now) }
    ensures few { IfNone result (Given.word_count kernels.now ticks.now ≤ 2 ^ 24) }
{
    let count = word_count(kernels, ticks);
    if count > MOST_WORDS {
        Some(count)
    } else {
        None
    }
}

/// What the stream equations of a project say of a run, where the nodes of its kernels have these
/// times and its links and starts are those that it has at them. No kernel reads a word that hangs
/// on the same word.
///
/// A run is refused exactly where its kernels have more than 2^24 words, one for each node in each
/// tick. The only other error is want of memory.
pub fn expect(
    alloc: Global,
    project: &Project,
    times: &[List<i64>],
    links: &Links,
    run: &ProjectRun,
) -> Result<Expected, ExpectError>
    requires causal { AreCausal project.now.kernels }
    requires times { AreTimes project.now.kernels times.now }
    requires links { AreLinksOf project.now times.now links.now }
    requires given { IsGiven project.now run.now }
    ensures is { IfOk result (IsExpectedOf project.now times.now links.now (given_of run.now)) }
    ensures widths { IfOk result (λ expected.
        HaveHostWidths project.now.joints.outputs expected.outputs) }
    ensures few { IfOk result (λ _.
        Given.word_count project.now.kernels run.now.ticks ≤ 2 ^ 24) }
    ensures err { IfErr result (IsRefused project.now.kernels run.now.ticks) }
{
    let count = word_count(project.kernels(), run.ticks.as_slice());
    if count > MOST_WORDS {
        return Err(ExpectError::TooLarge(count));
    }
    let words = project_words(alloc, project, run)?;
    let outputs = output_words(alloc, project, &words)?;
    let unbalanced = unbalanced_link(alloc, project, times, links, &words)?;
    Ok(Expected {
        outputs,
        unguarded: unguarded_place(project, &words),
        unbalanced,
    })
}
