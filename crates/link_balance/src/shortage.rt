// Where one end of a link is first ahead of the other.
ghost use Rattle.std.specs.Prelude.{◌≡◌, ◌&&◌, nat_le};
ghost use Rattle.link_balance.specs.Ports.{port_of};
ghost use Rattle.link_balance.specs.Shortages.{IsFirstShort};

use crate::PortRun;
use crate::passed::Passed;

/// The first tick of a port in which a word is due that the other end of the link doesn't allow
/// yet: it allows as many words as were due there in the edges before, and this room beside them.
pub(crate) fn first_short(port: &PortRun, other: &PortRun, room: u32) -> Option<u64>
    ensures { IsFirstShort (port_of port.now) (port_of other.now) room result }
{
    let mut passed = Passed { ticks: 0, words: 0 };
    let mut words = 0;
    for (tick, due) in port.due.as_slice().iter().enumerate() {
        passed.go_on(other, port.begin + tick as u64);
        if is_short(*due, room as usize + passed.words, words) {
            return Some(tick as u64);
        }
        words += usize::from(*due);
    }
    None
}

// Whether a word is due behind so many, and no more than these are allowed.
fn is_short(due: bool, allowed: usize, words: usize) -> bool
    ensures { result ≡ (due && nat_le allowed words) }
{
    due && allowed <= words
}
