// How far a port is.
ghost use Rattle.std.specs.Prelude.{◌≡◌, ◌≤◌, ◌-◌, min, length};
ghost use Rattle.stream_equations.specs.Equations.{count_before};

use crate::PortRun;

/// How many ticks of a port are before an edge, and in how many of them a word is due.
#[derive(Clone, Copy)]
pub(crate) struct Passed {
    pub(crate) ticks: usize,
    pub(crate) words: usize,
    ghost few: { words ≤ ticks },
}

impl Passed {
    ghost use Rattle.link_balance.specs.Ports.{port_of};

    /// Passes the ticks before this edge.
    pub(crate) fn go_on(&mut self, port: &PortRun, edge: u64)
        requires words { self.old.words ≡ count_before (port_of port.now).due self.old.ticks }
        requires before { self.old.ticks ≤ min (length port.now.due) (edge - port.now.begin) }
        ensures words { self.new.words ≡ count_before (port_of port.now).due self.new.ticks }
        ensures ticks { self.new.ticks ≡ min (length port.now.due) (edge - port.now.begin) }
    {
        let due = port.due.as_slice();
        while self.ticks < due.len() && port.begin + (self.ticks as u64) < edge {
            *self = Passed {
                ticks: self.ticks + 1,
                words: self.words + usize::from(due[self.ticks]),
            };
        }
    }
}
