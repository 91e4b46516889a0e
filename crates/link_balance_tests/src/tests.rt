// Links that are dry or full, and links that are as deep as their words need.
ghost use Rattle.std.specs.Prelude.{◌≤◌, length};

use link_balance::{LinkFault, PortRun, first_fault};
use mx_base::{List, NoMemory};
use project_streams::Side;
use std::alloc::Global;
use std::test::Fail;

// A port that is in tick 0 in this edge, with a word due in these of its ticks.
fn port(alloc: Global, begin: u32, due: &[bool]) -> Result<PortRun, NoMemory>
    requires { length due.now ≤ 8 }
{
    Ok(PortRun {
        begin: u64::from(begin),
        due: List::from_vec(due.to_vec(alloc)?),
    })
}

// The first fault of a link of this depth, whose words are written from one edge on, in these ticks,
// and read from another one on.
fn fault(
    alloc: Global,
    depth: u32,
    writes: &[bool],
    first_read: u32,
    reads: &[bool],
) -> Result<Option<LinkFault>, NoMemory>
    requires writes { length writes.now ≤ 8 }
    requires reads { length reads.now ≤ 8 }
{
    let from = port(alloc, 1, writes)?;
    let to = port(alloc, first_read, reads)?;
    Ok(first_fault(&from, &to, depth))
}

fn dry(tick: u64) -> Option<LinkFault> {
    Some(LinkFault {
        side: Side::Dry,
        tick,
    })
}

fn full(tick: u64) -> Option<LinkFault> {
    Some(LinkFault {
        side: Side::Full,
        tick,
    })
}

#[test]
fn links_are_dry_or_full_or_neither(rt: HostRuntime) -> Result<(), Fail> {
    let alloc = rt.alloc();
    let slow = [false, true, false, true, false, true, false, true];
    assert!(rt; fault(alloc, 2, &[true; 4], 2, &[true; 4])? == None);
    assert!(rt; fault(alloc, 2, &[true; 4], 2, &[true; 5])? == dry(4));
    assert!(rt; fault(alloc, 2, &[true; 2], 1, &[true; 2])? == dry(0));
    assert!(rt; fault(alloc, 2, &[true; 7], 2, &[true; 4])? == full(6));
    assert!(rt; fault(alloc, 1, &[true; 2], 2, &[true; 2])? == full(1));
    assert!(rt; fault(alloc, 2, &slow, 2, &[true; 4])? == dry(0));
    assert!(rt; fault(alloc, 2, &[true; 4], 2, &slow)? == full(2));
    Ok(())
}
