// Schedules of worked sources, by tables of latencies.
use crate::sums::{bits_of, excess_of, value_of};
use cycle_find::solve;
use kernel_eval_tests::{ACC, Built, DOUBLE, LONG, SQUARE, STENCIL, SUM3, build_alone};
use kernel_schedule::{Schedule, best_schedule};
use latency_table::Table;
use offset_edges::edges;
use std::alloc::Global;
use std::process::Abort;
use std::test::Fail;
use stream_graph::Kernel;

// No operation takes a tick.
const AT_ONCE: &str = "{\"add\":[[1,0]],\"sub\":[[1,0]],\"mul\":[[1,0]],\"div\":[[1,0]],\"neg\":\
        [[1,0]],\"and\":[[1,0]],\"or\":[[1,0]],\"xor\":[[1,0]],\"not\":[[1,0]],\"eq\":\
        [[1,0]],\"ne\":[[1,0]],\"lt\":[[1,0]],\"le\":[[1,0]],\"gt\":[[1,0]],\"ge\":\
        [[1,0]],\"mux\":[[1,0]],\"round\":[[1,0]]}";

// A sum takes one tick and a product three.
const SLOW: &str = "{\"add\":[[1,1]],\"mul\":[[1,3]],\"eq\":[[1,0]],\"mux\":[[1,0]]}";

// A source, the name of its kernel, a table, and the least bits of the kernel's FIFOs.
const LEAST_BITS: [(&str, &str, &str, i128); 6] = [
    (DOUBLE, "Double", AT_ONCE, 0),
    (SUM3, "Sum3", SLOW, 32),
    (SQUARE, "Square", SLOW, 24),
    (ACC, "Acc", SLOW, 0),
    (STENCIL, "Stencil", AT_ONCE, 30_720),
    (LONG, "Long", AT_ONCE, 320_000),
];

// The FIFOs of the kernel's best schedule have these bits.
fn expect_bits(rt: &impl Abort, alloc: Global, kernel: &Kernel, table: &Table, bits: i128) {
    match best_schedule(alloc, kernel, table) {
        Ok(schedule) => {
            let times = schedule.answer.times.as_slice();
            assert!(rt; bits_of(&schedule.problem, times) == bits);
        }
        Err(error) => assert!(rt; false, "{error:?}"),
    }
}

// The source builds a kernel of this name, whose best schedule has these bits.
fn expect_least_bits(
    rt: &impl Abort,
    alloc: Global,
    source: &str,
    name: &str,
    table: &Table,
    bits: i128,
) -> Result<(), Fail> {
    match build_alone(alloc, source.as_bytes(), name.as_bytes())? {
        Built::Kernel(kernel) => expect_bits(rt, alloc, &kernel, table, bits),
        Built::Refused(line) => assert!(rt; false, "{name}: {line:?}"),
    }
    Ok(())
}

#[test]
fn schedules_have_the_least_bits(rt: HostRuntime) -> Result<(), Fail> {
    let alloc = rt.alloc();
    for (source, name, table, bits) in LEAST_BITS {
        let table = Table::read(alloc, table.as_bytes())?;
        expect_least_bits(&rt, alloc, source, name, &table, bits)?;
    }
    Ok(())
}

// A flow for the kernel of three sums that is worth 32, on its arcs in their order.
const SENT: [u64; 10] = [0, 32, 32, 0, 32, 32, 0, 0, 32, 32];

// The best schedule of the kernel of three sums.
fn expect_three_sums(rt: &impl Abort, schedule: &Schedule) {
    let (problem, answer) = (&schedule.problem, &schedule.answer);
    let times = answer.times.as_slice();
    assert!(rt; times.get(..6) == Some([0, 0, 0, 0, 1, 2].as_slice()));
    assert!(rt; value_of(problem, answer.flow.as_slice()) == 32);
    assert!(rt; value_of(problem, &SENT) == 32);
    for node in 0..12 {
        assert!(rt; excess_of(problem, &SENT, node) == 0, "node {node}");
        let excess = excess_of(problem, answer.flow.as_slice(), node);
        assert!(rt; excess == 0, "node {node}");
    }
}

#[test]
fn three_sums_have_one_best_schedule(rt: HostRuntime) -> Result<(), Fail> {
    let alloc = rt.alloc();
    let table = Table::read(alloc, SLOW.as_bytes())?;
    match build_alone(alloc, SUM3.as_bytes(), b"Sum3")? {
        Built::Kernel(kernel) => match best_schedule(alloc, &kernel, &table) {
            Ok(schedule) => expect_three_sums(&rt, &schedule),
            Err(error) => assert!(rt; false, "{error:?}"),
        },
        Built::Refused(line) => assert!(rt; false, "{line:?}"),
    }
    Ok(())
}

// The FIFOs of the kernel's least times have these bits.
fn expect_bits_of_least_times(
    rt: &impl Abort,
    alloc: Global,
    kernel: &Kernel,
    table: &Table,
    bits: i128,
) {
    match edges(alloc, kernel, table) {
        Ok(problem) => match solve(alloc, &problem.arcs) {
            Ok(times) => assert!(rt; bits_of(&problem, times.as_slice()) == bits),
            Err(_) => assert!(rt; false),
        },
        Err(error) => assert!(rt; false, "{error:?}"),
    }
}

#[test]
fn the_earliest_times_need_more_bits(rt: HostRuntime) -> Result<(), Fail> {
    let alloc = rt.alloc();
    let table = Table::read(alloc, SLOW.as_bytes())?;
    match build_alone(alloc, SQUARE.as_bytes(), b"Square")? {
        Built::Kernel(kernel) => expect_bits_of_least_times(&rt, alloc, &kernel, &table, 192),
        Built::Refused(line) => assert!(rt; false, "{line:?}"),
    }
    Ok(())
}

// A chain of so many sums of a stream with itself.
const CHAIN_OF_4094: &str = "class Sums extends Kernel { Sums(KernelParameters p) { super(p);
  DFEVar s = io.input(\"x\", dfeUInt(8));
  for (int i = 0; i < 4094; i++) { s = s + s; }
  io.output(\"y\", s, dfeUInt(8)); } }
";

const CHAIN_OF_4095: &str = "class Sums extends Kernel { Sums(KernelParameters p) { super(p);
  DFEVar s = io.input(\"x\", dfeUInt(8));
  for (int i = 0; i < 4095; i++) { s = s + s; }
  io.output(\"y\", s, dfeUInt(8)); } }
";

#[test]
fn a_kernel_of_4096_nodes_has_a_schedule(rt: HostRuntime) -> Result<(), Fail> {
    let alloc = rt.alloc();
    let table = Table::read(alloc, SLOW.as_bytes())?;
    match build_alone(alloc, CHAIN_OF_4094.as_bytes(), b"Sums")? {
        Built::Kernel(kernel) => {
            assert!(rt; kernel.count() == 4096);
            expect_bits(&rt, alloc, &kernel, &table, 0);
        }
        Built::Refused(line) => assert!(rt; false, "{line:?}"),
    }
    Ok(())
}

#[test]
fn a_kernel_of_4097_nodes_is_refused(rt: HostRuntime) -> Result<(), Fail> {
    match build_alone(rt.alloc(), CHAIN_OF_4095.as_bytes(), b"Sums")? {
        Built::Kernel(kernel) => assert!(rt; false, "{} nodes", kernel.count()),
        Built::Refused(line) => {
            assert!(rt; line.as_slice() == b"refused G4 Sums 4097\n".as_slice());
        }
    }
    Ok(())
}
