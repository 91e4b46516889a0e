// What is written at an edge.
ghost use Rattle.std.specs.Prelude.{◌≡◌, IfOk};
ghost use Rattle.link_fifo.specs.Netlist.{write, the_updates};

use crate::nets::{ADDRESS, ALWAYS, COUNT, IN_DATA, NEXT_COUNT, NEXT_PLACE, PLACE, TAKES, WORDS};
use mx_base::{List, NoMemory};
use rtl_ir::{MemId, NetId, Target, Update};
use std::alloc::Global;

// A net written where another one is 1.
fn write(enable: u32, target: Target, value: u32) -> Update
    ensures { result ≡ write enable target value }
{
    Update {
        enable: NetId::new(enable),
        target,
        value: NetId::new(value),
    }
}

/// What is written at an edge: the place and the count, and a word where one is taken.
pub fn all_updates(alloc: Global) -> Result<List<Update>, NoMemory>
    ensures { IfOk result (λ l. l ≡ the_updates) }
{
    let (place, count) = (
        Target::Reg(NetId::new(PLACE)),
        Target::Reg(NetId::new(COUNT)),
    );
    let word = Target::Cell(MemId::new(WORDS), NetId::new(ADDRESS));
    let all = [
        write(ALWAYS, place, NEXT_PLACE),
        write(ALWAYS, count, NEXT_COUNT),
        write(TAKES, word, IN_DATA),
    ];
    Ok(List::from_vec(Vec::from_slice(alloc, &all)?))
}
