// Edges, problems and refusals of worked kernels.
use crate::{double, self_fed, sum3};
use latency_table::Table;
use mx_base::{NoMemory, Text};
use offset_edges::{edge_list, edges};
use schedule_problem::Problem;
use std::alloc::Global;
use std::process::Abort;
use std::test::Fail;
use stream_graph::Kernel;

// Every operation takes no tick, but a sum takes one.
const SUMS_TAKE_ONE: &str = "{\"add\":[[1,1]]}";

// The edges of the kernel of three neighbours: from, to and offset, by reader and then operand.
const SUM3_EDGES: [(u32, u32, i64); 5] = [(0, 2, -1), (0, 2, 0), (2, 4, 0), (0, 4, 1), (4, 5, 0)];

#[test]
fn neighbours_are_read_past_offsets(rt: HostRuntime) -> Result<(), Fail> {
    let alloc = rt.alloc();
    let edges = edge_list(alloc, &sum3(alloc)?)?;
    assert!(rt; edges.len() == SUM3_EDGES.len());
    for (edge, row) in edges.iter().zip(SUM3_EDGES.iter()) {
        assert!(rt; (edge.from, edge.to, edge.offset) == *row);
    }
    Ok(())
}

// Its arcs where a sum takes a tick: from, to and need, two an edge.
const SUM3_ARCS: [(u32, u32, i64); 10] = [
    (0, 2, -1),
    (2, 6, 1),
    (0, 2, 0),
    (2, 6, 0),
    (2, 4, 1),
    (4, 8, 0),
    (0, 4, 1),
    (4, 6, -1),
    (4, 5, 1),
    (5, 10, 0),
];

// And its terms, for each node that is read: from, to, weight and middle.
const SUM3_TERMS: [(u32, u32, u32, u32); 3] = [(0, 6, 32, 2), (2, 8, 32, 4), (4, 10, 32, 5)];

// The problem of the kernel of three neighbours.
fn expect_sum3(rt: &impl Abort, problem: &Problem) {
    assert!(rt; problem.arcs.nodes == 12);
    assert!(rt; problem.arcs.list.len() == SUM3_ARCS.len());
    for (arc, row) in problem.arcs.list.as_slice().iter().zip(SUM3_ARCS.iter()) {
        assert!(rt; (arc.from, arc.to, arc.need) == *row);
    }
    assert!(rt; problem.terms.len() == SUM3_TERMS.len());
    for (term, row) in problem.terms.as_slice().iter().zip(SUM3_TERMS.iter()) {
        assert!(rt; (term.from, term.to, term.weight, term.mid) == *row);
    }
    assert!(rt; problem.base == 64);
}

#[test]
fn neighbours_have_two_arcs_an_edge(rt: HostRuntime) -> Result<(), Fail> {
    let alloc = rt.alloc();
    let kernel = sum3(alloc)?;
    let table = Table::read(alloc, SUMS_TAKE_ONE.as_bytes())?;
    expect_sum3(&rt, &edges(alloc, &kernel, &table)?);
    Ok(())
}

// The line with which a kernel is refused by a table, or nothing.
fn line_of(alloc: Global, kernel: &Kernel, table: &Table) -> Result<Vec<u8>, NoMemory> {
    match edges(alloc, kernel, table) {
        Ok(_) => Ok(Vec::new(alloc)),
        Err(error) => {
            let name = Text::from_vec(kernel.name().to_vec(alloc)?);
            error.line(alloc, &name)
        }
    }
}

// That line is this one.
fn expect_line(
    rt: &impl Abort,
    alloc: Global,
    kernel: &Kernel,
    table: &Table,
    line: &str,
) -> Result<(), Fail> {
    let said = line_of(alloc, kernel, table)?;
    assert!(rt; said.as_slice() == line.as_bytes(), "{line}");
    Ok(())
}

// Tables of which one has no sum, one none of so few bits, and one all.
const TABLES: [&str; 3] = ["{}", "{\"add\":[[9,1]]}", SUMS_TAKE_ONE];

// What is said of a kernel by each of these tables.
fn expect_lines(
    rt: &impl Abort,
    alloc: Global,
    kernel: &Kernel,
    lines: [&str; 3],
) -> Result<(), Fail> {
    for (table, line) in TABLES.iter().zip(lines.iter()) {
        let table = Table::read(alloc, table.as_bytes())?;
        expect_line(rt, alloc, kernel, &table, line)?;
    }
    Ok(())
}

#[test]
fn kernels_without_a_problem_are_refused(rt: HostRuntime) -> Result<(), Fail> {
    let alloc = rt.alloc();
    let (lacks, fed) = (
        "refused L1 Double add 8\n",
        "refused C1 Self latency 0 back 0 nodes 0\n",
    );
    expect_lines(&rt, alloc, &double(alloc)?, [lacks, lacks, ""])?;
    let wide = "refused L1 Sum3 add 32\n";
    expect_lines(&rt, alloc, &sum3(alloc)?, [wide, "", ""])?;
    expect_lines(&rt, alloc, &self_fed(alloc)?, [fed, fed, fed])
}
