// The words of all kernels, each after those that it is linked from.
ghost use Rattle.std.specs.Prelude.{◌≡◌, ◌≤◌, ◌<◌, ◌^◌, All, length, map, replicate, slice_index};
ghost use Rattle.std.specs.Prelude.{IfOk, IsSome, None, Some};
ghost use Rattle.kernel_words.specs.Streams.{values_of as values_of_kernel, AreWords};
ghost use Rattle.project_streams.specs.Streams.{ProjectEquations, nodes_at, run_of};
ghost use Rattle.project_words.specs.Given.{given_of, word_count, AreCausal, IsGiven};
ghost use Rattle.project_words.specs.Open.{AreFed, AreKnown, settled_values};
ghost use Rattle.project_words.specs.Words.{values_of, HaveTicks, HaveWidths};
ghost use Rattle.stream_equations.specs.Equations.{StreamEquations};

use crate::open::next_open;
use crate::sources::sources_of;
use crate::{ProjectRun, ProjectWords};
use kernel_words::{KernelRun, Streams, kernel_streams};
use manager_links::Project;
use mx_base::{List, NoMemory};
use std::alloc::Global;

/// The words of all nodes of all kernels of a project in all ticks of a run, in which they are at
/// most 2^24. No kernel reads a word that hangs on the same word. The only error is want of memory.
pub fn project_words(
    alloc: Global,
    project: &Project,
    run: &ProjectRun,
) -> Result<ProjectWords, NoMemory>
    requires causal { AreCausal project.now.kernels }
    requires given { IsGiven project.now run.now }
    requires few { word_count project.now.kernels run.now.ticks ≤ 2 ^ 24 }
    ensures kernels { IfOk result (λ words. length words.kernels ≡ length project.now.kernels) }
    ensures ticks { IfOk result (HaveTicks (given_of run.now)) }
    ensures equations { IfOk result (λ words.
        ProjectEquations project.now (given_of run.now) (values_of words)) }
    ensures words { IfOk result (HaveWidths project.now.kernels) }
{
    let mut settled = all_open(alloc, project.kernels().len())?;
    while let Some(next) = next_open(project.ranks(), settled.as_slice()) {
        let streams = words_of_kernel(alloc, project, run, settled.as_slice(), next)?;
        settled[next] = Some(streams);
    }
    Ok(ProjectWords {
        kernels: all_done(alloc, settled)?,
    })
}

// So many kernels whose words aren't known.
fn all_open(alloc: Global, kernels: usize) -> Result<Vec<Option<Streams>>, NoMemory>
    ensures { IfOk result (λ settled. settled.items ≡ replicate kernels None) }
{
    let mut settled = Vec::new(alloc);
    for _ in 0..kernels {
        settled.push(None)?;
    }
    Ok(settled)
}

// The words of a kernel, where those of the kernels that it is linked from are known.
fn words_of_kernel(
    alloc: Global,
    project: &Project,
    run: &ProjectRun,
    settled: &[Option<Streams>],
    kernel: usize,
) -> Result<Streams, NoMemory>
    requires causal { AreCausal project.now.kernels }
    requires given { IsGiven project.now run.now }
    requires few { word_count project.now.kernels run.now.ticks ≤ 2 ^ 24 }
    requires kernel { kernel < length project.now.kernels }
    requires size { length settled.now ≡ length project.now.kernels }
    requires known { AreKnown project.now (given_of run.now) settled.now }
    requires fed { AreFed project.now.joints.links settled.now kernel }
    ensures ticks { IfOk result (λ streams. streams.ticks ≡ slice_index run.now.ticks kernel) }
    ensures equations { IfOk result (λ streams.
        StreamEquations (nodes_at project.now.kernels kernel)
        (run_of project.now (given_of run.now) (settled_values settled.now) kernel)
        (values_of_kernel streams)) }
    ensures words { IfOk result (λ streams.
        AreWords (nodes_at project.now.kernels kernel) (values_of_kernel streams)) }
{
    let sources = sources_of(alloc, project, run, settled, kernel as u32)?;
    let scalars = run.scalars.at(kernel).as_slice().to_vec(alloc)?;
    let own = KernelRun {
        ticks: *run.ticks.at(kernel),
        scalars: List::from_vec(scalars),
        sources: List::from_vec(sources),
    };
    kernel_streams(alloc, &project.kernels()[kernel], &own)
}

// The words of all kernels, which are known.
fn all_done(alloc: Global, settled: Vec<Option<Streams>>) -> Result<List<Streams>, NoMemory>
    requires { All (λ words. IsSome words) settled.items }
    ensures { IfOk result (λ done. map Some done ≡ settled.items) }
{
    let mut done = List::new(alloc);
    for words in settled {
        match words {
            Some(words) => done.push(words)?,
            None => unreachable!("its words are known"),
        }
    }
    Ok(done)
}
