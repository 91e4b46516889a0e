// A port in the ideal run.
ghost use Rattle.std.specs.Prelude.{◌+◌, ◌<◌, ◌^◌, length};

use mx_base::List;

/// A port of a kernel in the run in which nothing waits: the edge in which it is in tick 0, and for
/// each of its ticks whether a word is due in it. In each edge it is one tick further.
#[derive(Drop, PartialEq, Eq)]
pub struct PortRun {
    pub begin: u64,
    pub due: List<bool>,
    ghost fits: { begin + length due < 2 ^ 63 },
}
