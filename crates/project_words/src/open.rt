// Which kernel of a project is next.
ghost use Rattle.std.specs.Prelude.{◌≡◌, ◌<◌, length, None, Some, IfSome, slice_index_or};
ghost use Rattle.project_words.specs.Open.{is_lower, IsDone, IsNext};

use kernel_words::Streams;

/// The kernel of the lowest rank whose words aren't known, or `None` where those of all are.
pub(crate) fn next_open(ranks: &[usize], settled: &[Option<Streams>]) -> Option<usize>
    requires { length settled.now ≡ length ranks.now }
    ensures { IsNext ranks.now settled.now result }
{
    let mut next = None;
    for kernel in 0..settled.len() {
        if settled[kernel].is_none() && is_lower(ranks, kernel, next) {
            next = Some(kernel);
        }
    }
    next
}

// Whether a kernel has a lower rank than another one, or there is no other one.
fn is_lower(ranks: &[usize], kernel: usize, other: Option<usize>) -> bool
    requires kernel { kernel < length ranks.now }
    requires other { IfSome other (λ other. other < length ranks.now) }
    ensures { result ≡ is_lower ranks.now kernel other }
{
    match other {
        Some(other) => ranks[kernel] < ranks[other],
        None => true,
    }
}

/// The words of a kernel, which are known.
pub(crate) fn done_at(settled: &[Option<Streams>], kernel: usize) -> &Streams
    requires within { kernel < length settled.now }
    requires done { IsDone settled.now kernel }
    ensures { slice_index_or settled.now kernel None ≡ Some result.now }
{
    match &settled[kernel] {
        Some(streams) => streams,
        None => unreachable!("its words are known"),
    }
}
