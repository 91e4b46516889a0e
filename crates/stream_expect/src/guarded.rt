// Where a run is first unguarded.
ghost use Rattle.std.specs.Prelude.{◌≡◌, length};
ghost use Rattle.std.specs.Option.{option_map};
ghost use Rattle.project_streams.specs.Guarded.{IsGuardedBut};
ghost use Rattle.project_streams.specs.Streams.{GivenProject};
ghost use Rattle.project_words.specs.Words.{values_of, HaveTicks};
ghost use Rattle.stream_expect.specs.Expected.{place_of};

use crate::UnguardedPlace;
use kernel_words::first_unguarded;
use manager_links::Project;
use project_words::ProjectWords;

/// The first place, by kernel, then tick, then node, at which a control or a store is undefined, or
/// `None` where none is in any tick of the run.
pub(crate) fn unguarded_place(project: &Project, words: &ProjectWords) -> Option<UnguardedPlace>
    requires { length words.now.kernels ≡ length project.now.kernels }
    ensures { (given : GivenProject) → HaveTicks given words.now
        → IsGuardedBut project.now given (values_of words.now) (option_map place_of result) }
{
    let kernels = project.kernels();
    for number in 0..kernels.len() {
        if let Some(place) = first_unguarded(&kernels[number], words.of(number)) {
            return Some(UnguardedPlace {
                kernel: number as u32,
                node: place.node,
                tick: place.tick,
            });
        }
    }
    None
}
