// Commands in tests, and what each is to lead to. What is said is owned here, so that a test owns
// its files alone.
use crate::tests::{text, words};
use maxjc_core::{Status, maxjc};
use mx_base::{MemFiles, MemSay};
use stall_source::{Pattern, program_stalls};
use std::alloc::Global;
use std::process::Abort;
use std::test::Fail;

pub(crate) const COMPILE: [&[u8]; 5] = [b"compile", b"source", b"table", b"text", b"report"];

pub(crate) const SIMULATE: [&[u8]; 3] = [b"simulate", b"text", b"run"];

pub(crate) const CHECK: [&[u8]; 4] = [b"check", b"source", b"table", b"report"];

pub(crate) const EXPECT: [&[u8]; 5] = [b"expect", b"source", b"table", b"report", b"run"];

// Runs a command under the program's pattern of stalls.
pub(crate) fn run(
    alloc: Global,
    line: &[&[u8]],
    files: &mut MemFiles,
    say: &mut MemSay,
) -> Result<Status, Fail> {
    let stalls = Pattern::new(|pick: u64, edge: u64, port: u32| program_stalls(pick, edge, port));
    Ok(maxjc(alloc, &words(alloc, line)?, files, say, &stalls))
}

// Runs a command under a pattern that stalls port 1 wherever the pattern number isn't 0.
fn run_with_port_1_stalled(
    alloc: Global,
    line: &[&[u8]],
    files: &mut MemFiles,
    say: &mut MemSay,
) -> Result<Status, Fail> {
    let stalls = Pattern::new(|pick: u64, _: u64, port: u32| pick != 0 && port == 1);
    Ok(maxjc(alloc, &words(alloc, line)?, files, say, &stalls))
}

// A command ended with this status, and said this.
fn expect_told(
    rt: &impl Abort,
    alloc: Global,
    ended: Status,
    say: &MemSay,
    status: Status,
    said: &[u8],
) -> Result<(), Fail> {
    assert!(rt; say.bytes() == said, "{:?}", text(alloc, said)?);
    assert!(rt; ended == status, "{:?}", text(alloc, said)?);
    Ok(())
}

// How a command ends with these files, and what it says.
pub(crate) fn expect_ends(
    rt: &impl Abort,
    alloc: Global,
    line: &[&[u8]],
    files: &mut MemFiles,
    status: Status,
    said: &[u8],
) -> Result<(), Fail> {
    let mut say = MemSay::new(alloc, Vec::new(alloc))?;
    let ended = run(alloc, line, files, &mut say)?;
    expect_told(rt, alloc, ended, &say, status, said)
}

// The same for `simulate`, where port 1 is stalled.
pub(crate) fn expect_stalled(
    rt: &impl Abort,
    alloc: Global,
    files: &mut MemFiles,
    status: Status,
    said: &[u8],
) -> Result<(), Fail> {
    let mut say = MemSay::new(alloc, Vec::new(alloc))?;
    let ended = run_with_port_1_stalled(alloc, &SIMULATE, files, &mut say)?;
    expect_told(rt, alloc, ended, &say, status, said)
}

// A command whose first line can't be said ends so.
pub(crate) fn expect_unsaid(
    rt: &impl Abort,
    alloc: Global,
    line: &[&[u8]],
    files: &mut MemFiles,
) -> Result<(), Fail> {
    let mut say = MemSay::new(alloc, [1u64].to_vec(alloc)?)?;
    let ended = run(alloc, line, files, &mut say)?;
    assert!(rt; ended == Status::WriteFault);
    Ok(())
}
