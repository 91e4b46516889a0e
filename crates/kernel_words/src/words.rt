// Looking words up, and making them known.
ghost use Rattle.std.specs.Prelude.{◌≡◌, ℕ, ◌+◌, ◌*◌, ◌<◌, ◌≤◌, ◌^◌, pos, length, IfOk};
ghost use Rattle.kernel_words.specs.declared.cell.Cell.TheVariants.{Open};
ghost use Rattle.kernel_words.specs.Filling.{cell_of, is_open, IsPut};
ghost use Rattle.kernel_words.specs.Streams.{cell_at, values_of};

use crate::Streams;
use crate::cell::Cell;
use kernel_family::Place;
use mx_base::NoMemory;
use std::alloc::Global;
use stream_graph::NodeId;

impl Streams {
    /// Streams of which no word is known.
    pub(crate) fn open(alloc: Global, nodes: u32, ticks: u64) -> Result<Streams, NoMemory>
        requires { nodes * ticks ≤ 2 ^ 24 }
        ensures nodes { IfOk result (λ streams. streams.nodes ≡ nodes) }
        ensures ticks { IfOk result (λ streams. streams.ticks ≡ ticks) }
        ensures unknown { IfOk result (λ streams. (n t : ℕ) → cell_at streams n t ≡ Open) }
    {
        let count = (nodes as u64 * ticks) as usize;
        let cells = vec![in alloc; Cell::Open; count]?;
        Ok(Streams {
            nodes,
            ticks,
            cells,
        })
    }

    /// The number of ticks of the run.
    pub fn ticks(&self) -> u64
        ensures { result ≡ self.now.ticks }
    {
        self.ticks
    }

    /// The word of a node in a tick, from 0, or `None` where it is undefined, there is no such node,
    /// or the tick isn't one of the run.
    pub fn word(&self, node: NodeId, tick: u64) -> Option<u128>
        ensures { result ≡ values_of self.now node (pos tick) }
    {
        if node.number() >= self.nodes || tick >= self.ticks {
            return None;
        }
        let index = self.index(Place {
            node: node.number(),
            tick,
        });
        match self.cells[index] {
            Cell::Word(bits) => Some(bits),
            _ => None,
        }
    }

    // Where the cell of a place stands.
    fn index(&self, place: Place) -> usize
        requires node { place.node < self.now.nodes }
        requires tick { place.tick < self.now.ticks }
        ensures at { result ≡ place.node * self.now.ticks + place.tick }
        ensures within { result < length self.now.cells.items }
    {
        place.node as usize * self.ticks as usize + place.tick as usize
    }

    /// Whether the word isn't known.
    pub(crate) fn is_open(&self, place: Place) -> bool
        requires node { place.node < self.now.nodes }
        requires tick { place.tick < self.now.ticks }
        ensures { result ≡ is_open (cell_at self.now place.node place.tick) }
    {
        matches!(self.cells[self.index(place)], Cell::Open)
    }

    /// Makes a word known.
    pub(crate) fn put(&mut self, place: Place, word: Option<u128>)
        requires node { place.node < self.old.nodes }
        requires tick { place.tick < self.old.ticks }
        ensures { IsPut self.old self.new place word }
    {
        let index = self.index(place);
        self.cells[index] = cell_of(word);
    }
}

// The cell of a word that is known.
fn cell_of(word: Option<u128>) -> Cell
    ensures { result ≡ cell_of word }
{
    match word {
        Some(bits) => Cell::Word(bits),
        None => Cell::Undefined,
    }
}
