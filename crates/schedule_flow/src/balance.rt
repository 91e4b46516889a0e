// Sending all surplus to the nodes in want.
ghost use Rattle.std.specs.Prelude.{◌≡◌, ℕ, ◌+◌, ◌*◌, ◌<◌, ◌≤◌, ◌^◌, pos, ◌≤ℤ◌, ◌<ℤ◌, length, OnOk, IfOk};
ghost use Rattle.cycle_find.specs.Constraints.{numbers_of, Solves};
ghost use Rattle.schedule_problem.specs.Flow.{flow_of, excess};
ghost use Rattle.schedule_problem.specs.Optimum.{IsProblem};
ghost use Rattle.schedule_flow.specs.Network.{weights};
ghost use Rattle.schedule_flow.specs.Adjacency.{IsAdjacency};
ghost use Rattle.schedule_flow.specs.Balance.{IsOnWay};
ghost use Rattle.schedule_flow.specs.Tree.{IsTreeOf};

use crate::adjacency::Adjacency;
use crate::network::{Residual, augment};
use crate::search::find;
use crate::tree::Tree;
use crate::way::way_to;
use mx_base::NoMemory;
use schedule_problem::Problem;
use std::alloc::Global;

/// Sends what it can along one shortest path that begins at a node with a surplus.
fn send_from(
    alloc: Global,
    problem: &Problem,
    links: &Adjacency,
    net: &mut Residual,
    x: &mut [i128],
    tree: &mut Tree,
    source: usize,
) -> Result<(), NoMemory>
    requires problem { IsProblem problem.now }
    requires links { IsAdjacency problem.now.arcs.nodes problem.now.arcs.list links.now.first.items links.now.before.items }
    requires light { weights problem.now ≤ℤ pos (2 ^ 52) }
    requires on_way { IsOnWay problem.now (numbers_of x.old) net.old }
    requires numbers { length x.old ≡ problem.now.arcs.nodes }
    requires tree { IsTreeOf problem.now.arcs.nodes tree.old }
    requires source { source < problem.now.arcs.nodes }
    requires surplus { pos 0 <ℤ excess problem.now (flow_of net.old.flow) source }
    ensures tree { OnOk result (IsTreeOf problem.now.arcs.nodes tree.new) }
    ensures on_way { OnOk result (IsOnWay problem.now (numbers_of x.new) net.new) }
    ensures sends { OnOk result (net.new.sends ≡ net.old.sends + 1) }
    ensures keeps { OnOk result ((v : ℕ) → excess problem.now (flow_of net.old.flow) v ≤ℤ pos 0
        → excess problem.now (flow_of net.new.flow) v ≤ℤ pos 0) }
{
    let want = find(problem, links, x, net.flow(), net.rest(), tree, source)?;
    let way = way_to(alloc, problem, x, net.flow(), net.rest(), tree, want)?;
    augment(net, way.path.as_slice(), way.amount);
    Ok(())
}

/// Sends all that one node has to send.
fn send_out(
    alloc: Global,
    problem: &Problem,
    links: &Adjacency,
    net: &mut Residual,
    x: &mut [i128],
    tree: &mut Tree,
    source: usize,
) -> Result<(), NoMemory>
    requires problem { IsProblem problem.now }
    requires links { IsAdjacency problem.now.arcs.nodes problem.now.arcs.list links.now.first.items links.now.before.items }
    requires light { weights problem.now ≤ℤ pos (2 ^ 52) }
    requires on_way { IsOnWay problem.now (numbers_of x.old) net.old }
    requires numbers { length x.old ≡ problem.now.arcs.nodes }
    requires tree { IsTreeOf problem.now.arcs.nodes tree.old }
    requires source { source < problem.now.arcs.nodes }
    ensures tree { OnOk result (IsTreeOf problem.now.arcs.nodes tree.new) }
    ensures on_way { OnOk result (IsOnWay problem.now (numbers_of x.new) net.new) }
    ensures keeps { OnOk result ((v : ℕ) → excess problem.now (flow_of net.old.flow) v ≤ℤ pos 0
        → excess problem.now (flow_of net.new.flow) v ≤ℤ pos 0) }
    ensures sent { OnOk result (excess problem.now (flow_of net.new.flow) source ≤ℤ pos 0) }
{
    while net.rest()[source] > 0 {
        send_from(alloc, problem, links, net, x, tree, source)?;
    }
    Ok(())
}

/// Sends all that the nodes have to send.
pub fn send_all(
    alloc: Global,
    problem: &Problem,
    links: &Adjacency,
    net: &mut Residual,
    x: &mut [i128],
    tree: &mut Tree,
) -> Result<(), NoMemory>
    requires problem { IsProblem problem.now }
    requires links { IsAdjacency problem.now.arcs.nodes problem.now.arcs.list links.now.first.items links.now.before.items }
    requires light { weights problem.now ≤ℤ pos (2 ^ 52) }
    requires on_way { IsOnWay problem.now (numbers_of x.old) net.old }
    requires numbers { length x.old ≡ problem.now.arcs.nodes }
    requires tree { IsTreeOf problem.now.arcs.nodes tree.old }
    ensures tree { OnOk result (IsTreeOf problem.now.arcs.nodes tree.new) }
    ensures on_way { OnOk result (IsOnWay problem.now (numbers_of x.new) net.new) }
    ensures balanced { OnOk result ((v : ℕ) → v < problem.now.arcs.nodes → excess problem.now (flow_of net.new.flow) v ≤ℤ pos 0) }
{
    for source in 0..x.len() {
        send_out(alloc, problem, links, net, x, tree, source)?;
    }
    Ok(())
}
