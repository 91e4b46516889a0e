use crate::commands::{COMPILE, expect_ends, expect_unsaid};
use crate::files::{expect_file, files_with, put};
use maxjc_core::Status;
use mx_base::{MemFiles, Text};
use std::alloc::Global;
use std::process::Abort;
use std::test::Fail;

pub(crate) const DOUBLE: &[u8] = b"class Double extends Kernel {
  Double(KernelParameters p) {
    super(p);
    DFEVar x = io.input(\"x\", dfeUInt(8));
    io.output(\"y\", x + x, dfeUInt(8));
  }
}
";

const TWO_CLASSES: &[u8] = b"class A extends Kernel { A(KernelParameters p) { super(p); } }
class B extends Kernel { B(KernelParameters p) { super(p); } }
";

// A latency table by which no operation takes a tick.
pub(crate) const IMMEDIATE: &[u8] =
    b"{\"add\":[[1,0]],\"sub\":[[1,0]],\"mul\":[[1,0]],\"div\":[[1,0]],
\"neg\":[[1,0]],\"and\":[[1,0]],\"or\":[[1,0]],\"xor\":[[1,0]],\"not\":[[1,0]],\"eq\":[[1,0]],
\"ne\":[[1,0]],\"lt\":[[1,0]],\"le\":[[1,0]],\"gt\":[[1,0]],\"ge\":[[1,0]],\"mux\":[[1,0]],\"round\":[[1,0]]}";

// What `compile` says of that kernel.
const SUMMARY: &[u8] = b"kernel Double fifo 0\n";

const USAGE: &[u8] =
    b"usage: compile SRC TABLE OUT REPORT | simulate TEXT RUN | expect SRC TABLE REPORT RUN | check SRC TABLE REPORT | generate N\n";

pub(crate) fn text(alloc: Global, bytes: &[u8]) -> Result<Text, Fail> {
    Ok(Text::from_vec(bytes.to_vec(alloc)?))
}

pub(crate) fn words(alloc: Global, line: &[&[u8]]) -> Result<Vec<Text>, Fail> {
    let mut words = Vec::new(alloc);
    for word in line {
        words.push(text(alloc, word)?)?;
    }
    Ok(words)
}

// Files in memory that hold this source and a table without latencies, and fail at these calls.
fn project(alloc: Global, source: &[u8], fails: &[u64]) -> Result<MemFiles, Fail> {
    let held: [(&[u8], &[u8]); 3] = [
        (b"source", source),
        (b"table", IMMEDIATE),
        (b"other", b"as before"),
    ];
    files_with(alloc, &held, fails)
}

// What a source leads to: the status, and what is said.
pub(crate) fn expect_end(
    rt: &impl Abort,
    alloc: Global,
    source: &[u8],
    status: Status,
    said: &[u8],
) -> Result<(), Fail> {
    expect_end_with(rt, alloc, source, IMMEDIATE, status, said)
}

// What a source and a latency table lead to.
pub(crate) fn expect_end_with(
    rt: &impl Abort,
    alloc: Global,
    source: &[u8],
    table: &[u8],
    status: Status,
    said: &[u8],
) -> Result<(), Fail> {
    let mut files = project(alloc, source, &[])?;
    put(alloc, &mut files, b"table", table)?;
    expect_ends(rt, alloc, &COMPILE, &mut files, status, said)
}

#[test]
fn a_kernel_of_one_sum_is_compiled(rt: HostRuntime) -> Result<(), Fail> {
    let alloc = rt.alloc();
    let mut files = project(alloc, DOUBLE, &[])?;
    expect_ends(&rt, alloc, &COMPILE, &mut files, Status::Done, SUMMARY)?;
    expect_file(&rt, alloc, &mut files, b"other", b"as before")
}

#[test]
fn sources_are_refused(rt: HostRuntime) -> Result<(), Fail> {
    for (source, said) in [
        (b"".as_slice(), b"refused S3 0\n".as_slice()),
        (b"class", b"refused S3 5\n"),
        (b"\xc8", b"refused S1 0\n"),
        (b"class #", b"refused S2 6\n"),
        (b"class goto", b"refused S4 6\n"),
        (TWO_CLASSES, b"refused S6\n"),
    ] {
        expect_end(&rt, rt.alloc(), source, Status::Refused, said)?;
    }
    Ok(())
}

#[test]
fn words_that_are_no_command(rt: HostRuntime) -> Result<(), Fail> {
    let alloc = rt.alloc();
    let lines: [&[&[u8]]; 8] = [
        &[],
        &[b"simulate", b"a"],
        &[b"simulate", b"a", b"b", b"c"],
        &[b"compile", b"a", b"b", b"c", b"c"],
        &[b"compile", b"a", b"b", b"c"],
        &[b"expect", b"a", b"b", b"c"],
        &[b"expect", b"a", b"b", b"c", b"d", b"e"],
        &[b"generate", b"4294967296"],
    ];
    for line in lines {
        let mut files = project(alloc, DOUBLE, &[])?;
        expect_ends(&rt, alloc, line, &mut files, Status::Usage, USAGE)?;
    }
    Ok(())
}

// The calls of `compile`: two reads of the source, two of the table, `create` and `append` of the
// text, and of the report.
#[test]
fn the_first_call_that_fails_ends_the_command(rt: HostRuntime) -> Result<(), Fail> {
    let alloc = rt.alloc();
    for (call, status, said) in [
        (1, Status::ReadFault, b"".as_slice()),
        (2, Status::ReadFault, b""),
        (3, Status::ReadFault, b""),
        (4, Status::ReadFault, b""),
        (5, Status::WriteFault, b""),
        (6, Status::WriteFault, b""),
        (7, Status::WriteFault, b""),
        (8, Status::WriteFault, b""),
        (9, Status::Done, SUMMARY),
    ] {
        let mut files = project(alloc, DOUBLE, &[call])?;
        expect_ends(&rt, alloc, &COMPILE, &mut files, status, said)?;
    }
    expect_unsaid(&rt, alloc, &COMPILE, &mut project(alloc, DOUBLE, &[])?)
}

#[test]
fn a_source_that_is_not_held(rt: HostRuntime) -> Result<(), Fail> {
    let alloc = rt.alloc();
    let mut files = MemFiles::new(alloc, Vec::new(alloc))?;
    expect_ends(&rt, alloc, &COMPILE, &mut files, Status::ReadFault, b"")
}

// A source with blanks behind it, of this many bytes.
fn padded(alloc: Global, source: &[u8], size: usize) -> Result<Vec<u8>, Fail> {
    let mut bytes = source.to_vec(alloc)?;
    for _ in source.len()..size {
        bytes.push(b' ')?;
    }
    Ok(bytes)
}

#[test]
fn a_source_at_the_limit_and_past_it(rt: HostRuntime) -> Result<(), Fail> {
    let alloc = rt.alloc();
    let mut source = padded(alloc, DOUBLE, 1 << 24)?;
    expect_end(&rt, alloc, &source, Status::Done, SUMMARY)?;
    source.push(b' ')?;
    expect_end(&rt, alloc, &source, Status::Refused, b"refused F1 source\n")
}

#[test]
fn a_text_and_a_run_file_that_are_not_held(rt: HostRuntime) -> Result<(), Fail> {
    let alloc = rt.alloc();
    let names: [&[&[u8]]; 2] = [
        &[b"simulate", b"text", b"run"],
        &[b"simulate", b"source", b"run"],
    ];
    for line in names {
        let mut files = project(alloc, DOUBLE, &[])?;
        expect_ends(&rt, alloc, line, &mut files, Status::ReadFault, b"")?;
    }
    Ok(())
}
