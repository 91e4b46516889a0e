// What the stream equations say of a run.

use mx_base::List;
use project_streams::Side;

/// A kernel, a node of it and a tick, each from 0.
#[derive(Clone, Copy, PartialEq, Eq)]
pub struct UnguardedPlace {
    pub kernel: u32,
    pub node: u32,
    pub tick: u64,
}

/// A link between kernels by its number, and the tick of its consumer at which it is dry or that of
/// its producer at which it is full, both from 0.
#[derive(Clone, Copy, PartialEq, Eq)]
pub struct UnbalancedLink {
    pub link: u32,
    pub side: Side,
    pub tick: u64,
}

/// What the stream equations say of a run: for each stream to the CPU its words, in order, an
/// undefined one as `None`; the first place at which a control or a store is undefined, by kernel,
/// then tick, then node; and the first link that is dry or full in the run in which nothing waits,
/// by link, then edge, then dry before full.
#[derive(Drop)]
pub struct Expected {
    pub outputs: List<List<Option<u128>>>,
    pub unguarded: Option<UnguardedPlace>,
    pub unbalanced: Option<UnbalancedLink>,
}
