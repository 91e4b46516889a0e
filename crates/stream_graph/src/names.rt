// Names of ports that were met.
ghost use Rattle.std.specs.Prelude.{◌≡◌, ◌∷◌, [], not, List, ℕ, IfOk, OnOk};

use mx_base::NoMemory;
use std::alloc::Global;
use std::collections::HashSet;

/// Names of ports of one kind that were met.
#[derive(Drop)]
pub(crate) struct Names<'a> {
    met: HashSet<&'a [u8]>,
}

impl<'a> Names<'a> {
    ghost use Rattle.stream_graph.specs.Met.{HaveMet};
    ghost use Rattle.stream_graph.specs.Ports.{is_among};

    /// No name was met. It takes no memory.
    pub fn new(alloc: Global) -> Self
        ensures { HaveMet result [] }
    {
        Names {
            met: HashSet::new(alloc),
        }
    }

    /// Meets one more name, and answers whether it is new.
    pub fn meet(&mut self, name: &'a [u8]) -> Result<bool, NoMemory>
        ensures fresh { IfOk result (λ fresh. (names : List (List ℕ)) → HaveMet self.old names → fresh ≡ not (is_among name.now names)) }
        ensures met { OnOk result ((names : List (List ℕ)) → HaveMet self.old names → HaveMet self.new (name.now ∷ names)) }
    {
        Ok(self.met.insert(name)?)
    }
}

/// Names of ports that were met, by their kinds.
#[derive(Drop)]
pub(crate) struct PortNames<'a> {
    pub inputs: Names<'a>,
    pub outputs: Names<'a>,
    pub scalars: Names<'a>,
}
