// Where an instance of a design stands in the flat module.

/// Where an instance stands in the flat module: which it was of the instances that were not yet
/// flat, and the numbers of its first net and its first memory, with how many it has of them.
#[derive(Clone, Copy, Drop)]
pub(crate) struct Scope {
    pub(crate) instance: usize,
    pub(crate) first_net: usize,
    pub(crate) nets: usize,
    pub(crate) first_mem: usize,
    pub(crate) mems: usize,
}
