// The latencies of a kernel's nodes.
ghost use Rattle.std.specs.Prelude.{◌≡◌, ◌<◌, ◌≤◌, Some, length, IfOk, IfErr};
ghost use Rattle.stream_graph.specs.LookUps.{operands_at};
ghost use Rattle.offset_edges.specs.Latencies.{deciding, latency_at, width_for, AreLatencies, Lacks, IsMissing};

use crate::EdgeError;
use latency_table::Table;
use mx_bits::Op;
use std::alloc::Global;
use stream_graph::{Kernel, Kind, NodeId};

/// The latency of each node of a kernel by the table, in ticks and in node order: of an operation
/// by the width of the operand that decides it, of all others 0. `NoLatency` exactly where the table
/// has no row for an operation of the kernel, the first in node order.
pub fn latencies(alloc: Global, kernel: &Kernel, table: &Table) -> Result<Vec<u32>, EdgeError>
    ensures ok { IfOk result (λ ticks.
        AreLatencies table.now kernel.now.nodes (length kernel.now.nodes) ticks.items) }
    ensures err { IfErr result (IsMissing table.now kernel.now.nodes) }
{
    let mut ticks = Vec::new(alloc);
    for number in 0..kernel.count() {
        let latency = latency(kernel, table, number)?;
        ticks.push(latency)?;
    }
    Ok(ticks)
}

// The latency of a node: of an operation by the width of the operand that decides it, of all others
// 0.
fn latency(kernel: &Kernel, table: &Table, number: u32) -> Result<u32, EdgeError>
    requires { number < length kernel.now.nodes }
    ensures ok { IfOk result (λ ticks. latency_at table.now kernel.now.nodes number ≡ Some ticks) }
    ensures at_most { IfOk result (λ ticks. ticks ≤ 64) }
    ensures err { IfErr result (Lacks table.now kernel.now.nodes number) }
{
    let Kind::Operation(op, ..) = kernel.node(NodeId::new(number)).kind else {
        return Ok(0);
    };
    let width = width_for(kernel, number, op);
    match table.latency(op, width) {
        Some(ticks) => Ok(ticks),
        None => Err(EdgeError::NoLatency(op, width)),
    }
}

// The width of an operation's first operand, of a multiplexer of its second.
fn width_for(kernel: &Kernel, number: u32, op: Op) -> u8
    requires node { number < length kernel.now.nodes }
    requires place { deciding op < length (operands_at kernel.now.nodes number) }
    ensures { result ≡ width_for kernel.now.nodes number op }
{
    let operand = kernel.operands(NodeId::new(number))[deciding(op)];
    kernel.node(operand).t.width()
}

// The place of the operand whose width decides.
fn deciding(op: Op) -> usize
    ensures { result ≡ deciding op }
{
    match op {
        Op::Mux => 1,
        _ => 0,
    }
}
