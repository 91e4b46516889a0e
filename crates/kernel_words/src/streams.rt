// The words of all nodes of a kernel in all ticks of a run.
ghost use Rattle.std.specs.Prelude.{◌≡◌, ◌*◌, ◌≤◌, ◌^◌, length};

use crate::cell::Cell;

/// The words of all nodes of a kernel in all ticks of a run, 32 bytes for each. `kernel_streams`
/// makes them.
#[derive(Drop)]
pub struct Streams {
    pub(crate) nodes: u32,
    pub(crate) ticks: u64,
    pub(crate) cells: Vec<Cell>,
    ghost all: { length cells.items ≡ nodes * ticks },
    ghost few: { nodes * ticks ≤ 2 ^ 24 },
}
