// Sending flow as a guess says.
ghost use Rattle.std.specs.Prelude.{◌≡◌, ℕ, ◌+◌, ◌*◌, ◌<◌, ◌≤◌, ◌^◌, pos, ◌≤ℤ◌, ◌<ℤ◌, length, slice_index, unsigned_abs, IfSome, OnOk};
ghost use Rattle.cycle_find.specs.Constraints.{numbers_of, EndsInRange};
ghost use Rattle.schedule_problem.specs.Flow.{Flow, flow_of, excess};
ghost use Rattle.schedule_problem.specs.Optimum.{IsProblem};
ghost use Rattle.schedule_flow.specs.Network.{weights};
ghost use Rattle.schedule_flow.specs.Balance.{IsOnWay};
ghost use Rattle.schedule_flow.specs.Follow.{IsFreeArc};
ghost use Rattle.schedule_flow.specs.Reach.{IsReached, IsWanting};
ghost use Rattle.schedule_flow.specs.Tree.{IsTreeOf};

use crate::arcs::{arc_count, arc_of};
use crate::guide::Guide;
use crate::network::{Residual, augment};
use crate::search::slack;
use crate::tree::Tree;
use crate::way::way_to;
use mx_base::NoMemory;
use schedule_problem::Problem;
use std::alloc::Global;

/// Where an arc ends, if it starts at the node and its need is met with equality.
fn free_end(problem: &Problem, x: &[i128], number: u32, node: usize) -> Option<usize>
    requires ends { EndsInRange (length x.now) problem.now.arcs.list }
    requires small { (v : ℕ) → unsigned_abs (numbers_of x.now v) ≤ 2 ^ 116 }
    ensures { IfSome result (λ to. IsFreeArc problem.now (numbers_of x.now) number node to) }
{
    let j = number as usize;
    if j >= arc_count(problem) {
        return None;
    }
    let arc = arc_of(problem, j);
    if arc.from as usize == node && slack(problem, x, j) == 0 {
        Some(arc.to as usize)
    } else {
        None
    }
}

/// Follows the guess from a node with a surplus to a node in want, over arcs that are met with equality.
fn follow(
    problem: &Problem,
    x: &[i128],
    rest: &[i64],
    tree: &mut Tree,
    guide: &mut Guide,
    source: usize,
) -> Option<usize>
    requires few { length problem.now.arcs.list < 2 ^ 31 }
    requires nodes { length x.now ≤ 2 ^ 16 }
    requires numbers { length x.now ≡ problem.now.arcs.nodes }
    requires ends { EndsInRange (length x.now) problem.now.arcs.list }
    requires small { (v : ℕ) → unsigned_abs (numbers_of x.now v) ≤ 2 ^ 116 }
    requires rest { length rest.now ≡ problem.now.arcs.nodes }
    requires tree { IsTreeOf problem.now.arcs.nodes tree.old }
    requires source { source < problem.now.arcs.nodes }
    requires surplus { pos 0 <ℤ numbers_of rest.now source }
    ensures tree { IsTreeOf problem.now.arcs.nodes tree.new }
    ensures reached { IfSome result (λ _. (f : Flow) → IsReached problem.now (numbers_of x.now) f
        (numbers_of rest.now) tree.new.place.items tree.new.via.items) }
    ensures wanting { IfSome result (IsWanting tree.new.place.items (numbers_of rest.now)) }
{
    tree.place.fill(0);
    tree.place[source] = 1;
    let mut node = source;
    for count in 2..x.len() as u32 + 2 {
        if rest[node] < 0 {
            return Some(node);
        }
        let number = guide.arc_from(node)?;
        let to = free_end(problem, x, number, node)?;
        if tree.place[to] != 0 {
            return None;
        }
        tree.place[to] = count;
        tree.via[to] = 2 * number;
        node = to;
    }
    None
}

/// Sends along one path what the guess says. It answers whether the guess led anywhere.
fn send_along(
    alloc: Global,
    problem: &Problem,
    net: &mut Residual,
    x: &[i128],
    tree: &mut Tree,
    guide: &mut Guide,
    source: usize,
) -> Result<bool, NoMemory>
    requires problem { IsProblem problem.now }
    requires light { weights problem.now ≤ℤ pos (2 ^ 52) }
    requires on_way { IsOnWay problem.now (numbers_of x.now) net.old }
    requires small { (v : ℕ) → unsigned_abs (numbers_of x.now v) ≤ 2 ^ 116 }
    requires numbers { length x.now ≡ problem.now.arcs.nodes }
    requires tree { IsTreeOf problem.now.arcs.nodes tree.old }
    requires source { source < problem.now.arcs.nodes }
    requires surplus { pos 0 <ℤ excess problem.now (flow_of net.old.flow) source }
    ensures tree { OnOk result (IsTreeOf problem.now.arcs.nodes tree.new) }
    ensures on_way { OnOk result (IsOnWay problem.now (numbers_of x.now) net.new) }
{
    let Some(want) = follow(problem, x, net.rest(), tree, guide, source) else {
        return Ok(false);
    };
    let way = way_to(alloc, problem, x, net.flow(), net.rest(), tree, want)?;
    let amount = way.amount.min(guide.least(&way.path)).max(1);
    guide.take(&way.path, amount);
    augment(net, way.path.as_slice(), amount);
    Ok(true)
}

/// Sends what the guess says from one node.
fn take_up_from(
    alloc: Global,
    problem: &Problem,
    net: &mut Residual,
    x: &[i128],
    tree: &mut Tree,
    guide: &mut Guide,
    source: usize,
) -> Result<(), NoMemory>
    requires problem { IsProblem problem.now }
    requires light { weights problem.now ≤ℤ pos (2 ^ 52) }
    requires on_way { IsOnWay problem.now (numbers_of x.now) net.old }
    requires small { (v : ℕ) → unsigned_abs (numbers_of x.now v) ≤ 2 ^ 116 }
    requires numbers { length x.now ≡ problem.now.arcs.nodes }
    requires tree { IsTreeOf problem.now.arcs.nodes tree.old }
    requires source { source < problem.now.arcs.nodes }
    ensures tree { OnOk result (IsTreeOf problem.now.arcs.nodes tree.new) }
    ensures on_way { OnOk result (IsOnWay problem.now (numbers_of x.now) net.new) }
{
    for _ in 0..u64::MAX {
        if net.rest()[source] <= 0 {
            return Ok(());
        }
        if !send_along(alloc, problem, net, x, tree, guide, source)? {
            return Ok(());
        }
    }
    Ok(())
}

/// Sends what the guess says, as far as it leads along free arcs from nodes with a surplus to nodes in
/// want.
pub fn take_up(
    alloc: Global,
    problem: &Problem,
    net: &mut Residual,
    x: &[i128],
    tree: &mut Tree,
    guide: &mut Guide,
) -> Result<(), NoMemory>
    requires problem { IsProblem problem.now }
    requires light { weights problem.now ≤ℤ pos (2 ^ 52) }
    requires on_way { IsOnWay problem.now (numbers_of x.now) net.old }
    requires small { (v : ℕ) → unsigned_abs (numbers_of x.now v) ≤ 2 ^ 116 }
    requires numbers { length x.now ≡ problem.now.arcs.nodes }
    requires tree { IsTreeOf problem.now.arcs.nodes tree.old }
    ensures tree { OnOk result (IsTreeOf problem.now.arcs.nodes tree.new) }
    ensures on_way { OnOk result (IsOnWay problem.now (numbers_of x.now) net.new) }
{
    for source in (0..x.len()).rev() {
        take_up_from(alloc, problem, net, x, tree, guide, source)?;
    }
    Ok(())
}
