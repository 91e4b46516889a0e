// What is given to a run of a project.
use mx_base::List;

/// What is given to a run of a project: for each kernel its ticks, and a word for each of its
/// nodes, of which those of its scalars count; and for each stream from the CPU its words, in the
/// order of the streams.
#[derive(Drop)]
pub struct ProjectRun {
    pub ticks: List<u64>,
    pub scalars: List<List<u128>>,
    pub words: List<List<u128>>,
}
