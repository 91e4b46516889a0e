// Where a control or a store is undefined first.
ghost use Rattle.std.specs.Prelude.{◌≡◌, ◌<◌, length, pos, true, false};
ghost use Rattle.kernel_words.specs.Guarded.{IsGuardedBut, IsUnguarded};
ghost use Rattle.kernel_words.specs.Streams.{values_of};

use crate::Streams;
use kernel_family::Place;
use stream_graph::{Kernel, NodeId};

/// The first place, by tick and then by node, at which the control of a port or the store of a hold
/// is undefined, or `None` where none is in any tick of the run.
pub fn first_unguarded(kernel: &Kernel, streams: &Streams) -> Option<Place>
    ensures { IsGuardedBut kernel.now.nodes streams.now.ticks (values_of streams.now) result }
{
    if kernel.count() == 0 {
        return None;
    }
    for tick in 0..streams.ticks() {
        for number in 0..kernel.count() {
            let place = Place { node: number, tick };
            if is_unguarded(kernel, streams, place) {
                return Some(place);
            }
        }
    }
    None
}

// Whether the node has a control or a store there, and it is undefined.
fn is_unguarded(kernel: &Kernel, streams: &Streams, place: Place) -> bool
    requires node { place.node < length kernel.now.nodes }
    requires tick { place.tick < streams.now.ticks }
    ensures yes { result ≡ true → IsUnguarded kernel.now.nodes streams.now.ticks (values_of streams.now) place }
    ensures no { result ≡ false → IsUnguarded kernel.now.nodes streams.now.ticks (values_of streams.now) place → ⊥ }
{
    let Some(port) = kernel.control(NodeId::new(place.node)) else {
        return false;
    };
    match streams.word(port, place.tick) {
        Some(_) => false,
        None => true,
    }
}
