// How many words a run has.
ghost use Rattle.std.specs.Prelude.{◌≡◌, ◌≤◌, ◌*◌, ◌^◌, length};
ghost use Rattle.project_words.specs.Given as Given;

use stream_graph::Kernel;

/// How many words kernels have in so many ticks each: one for each node in each tick.
pub(crate) fn word_count(kernels: &[Kernel], ticks: &[u64]) -> u128
    requires few { length kernels.now ≤ 64 }
    requires each { length ticks.now ≡ length kernels.now }
    ensures { result ≡ Given.word_count kernels.now ticks.now }
{
    let mut words = 0;
    for number in 0..kernels.len() {
        words += words_in(&kernels[number], ticks[number]);
    }
    words
}

// How many words one kernel has.
fn words_in(kernel: &Kernel, ticks: u64) -> u128
    ensures is { result ≡ length kernel.now.nodes * ticks }
    ensures few { result ≤ 2 ^ 76 }
{
    u128::from(kernel.count()) * u128::from(ticks)
}
