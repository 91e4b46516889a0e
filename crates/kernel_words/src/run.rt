// What is given to a run of a kernel.

use mx_base::List;

/// The ticks of a run, 0 up to below their number, and what is given to it. Both lists have an item
/// for each node of the kernel, in node order: `scalars` the word of each scalar, and `sources` the
/// words of the source of each input, from number 0 on, where some may be undefined and there are
/// none past the end. The items of other nodes count for nothing, beside that their words have the
/// width of the node.
#[derive(Drop)]
pub struct KernelRun {
    pub ticks: u64,
    pub scalars: List<u128>,
    pub sources: List<List<Option<u128>>>,
}
