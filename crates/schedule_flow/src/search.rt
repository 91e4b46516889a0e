// Searching for the nearest node in want.
ghost use Rattle.std.specs.Prelude.{
  ◌≡◌,
  ◌≢◌,
  ◌⊎◌,
  ℕ,
  ◌+◌,
  ◌-◌,
  ◌*◌,
  ◌/◌,
  ◌%◌,
  ◌<◌,
  ◌≤◌,
  ◌^◌,
  pos,
  ◌+ℤ◌,
  ◌-ℤ◌,
  ◌≤ℤ◌,
  ◌<ℤ◌,
  length,
  slice_index,
  unsigned_abs,
  IfSome,
  IfNone,
  IfOk,
  OnOk,
  OnErr,
};
ghost use Rattle.cycle_find.specs.Constraints.{Numbers, numbers_of, EndsInRange, NeedsWithin, Solves};
ghost use Rattle.schedule_problem.specs.Flow.{flow_of, excess};
ghost use Rattle.schedule_problem.specs.Optimum.{IsProblem};
ghost use Rattle.schedule_flow.specs.Network.{IsTight, tail_of};
ghost use Rattle.schedule_flow.specs.Adjacency.{IsAdjacency};
ghost use Rattle.schedule_flow.specs.Queue.{Waits};
ghost use Rattle.schedule_flow.specs.Reach.{IsReached, IsWanting};
ghost use Rattle.schedule_flow.specs.Tree.{IsTreeOf};
ghost use Rattle.schedule_flow.specs.Search.{
  IsSearch,
  IsOpen,
  IsTaken,
  IsFarthest,
  IsRelaxed,
  AllRelaxed,
  Stays,
  Nears,
  far,
  reduced,
  risen,
  slack_of,
};

use crate::adjacency::Adjacency;
use crate::arcs::arc_of;
use crate::network::{head, tail};
use crate::queue::Queue;
use crate::tree::Tree;
use mx_base::NoMemory;
use schedule_problem::Problem;

/// How far the end of arc `j` stands above what the arc asks.
pub fn slack(problem: &Problem, x: &[i128], j: usize) -> i128
    requires arc { j < length problem.now.arcs.list }
    requires ends { EndsInRange (length x.now) problem.now.arcs.list }
    requires small { (v : ℕ) → unsigned_abs (numbers_of x.now v) ≤ 2 ^ 116 }
    ensures slack { result ≡ slack_of problem.now (numbers_of x.now) j }
    ensures small { unsigned_abs result ≤ 2 ^ 118 }
{
    let arc = arc_of(problem, j);
    x[arc.to as usize] - x[arc.from as usize] - arc.need as i128
}

/// The reduced need of a residual arc, where there is room in it.
fn reduced_need(problem: &Problem, x: &[i128], flow: &[u64], number: u32) -> Option<u128>
    requires arc { number / 2 < length problem.now.arcs.list }
    requires ends { EndsInRange (length x.now) problem.now.arcs.list }
    requires flow { length flow.now ≡ length problem.now.arcs.list }
    requires legal { Solves (numbers_of x.now) problem.now.arcs.list }
    requires small { (v : ℕ) → unsigned_abs (numbers_of x.now v) ≤ 2 ^ 116 }
    ensures room { IfSome result (λ _. IsOpen (flow_of flow.now) number) }
    ensures need { IfSome result (λ c. pos c ≡ reduced problem.now (numbers_of x.now) number) }
    ensures small { IfSome result (λ c. c ≤ 2 ^ 118) }
    ensures none { IfNone result (IsOpen (flow_of flow.now) number → ⊥) }
{
    let j = (number / 2) as usize;
    if number % 2 == 0 {
        Some(slack(problem, x, j) as u128)
    } else if flow[j] > 0 {
        Some(0)
    } else {
        None
    }
}

/// Goes over a residual arc from a settled node, where it leads nearer to a node that isn't settled.
fn relax(
    problem: &Problem,
    x: &[i128],
    flow: &[u64],
    tree: &mut Tree,
    queue: &mut Queue,
    number: u32,
) -> Result<(), NoMemory>
    requires arc { number / 2 < length problem.now.arcs.list }
    requires ends { EndsInRange (length x.now) problem.now.arcs.list }
    requires flow { length flow.now ≡ length problem.now.arcs.list }
    requires legal { Solves (numbers_of x.now) problem.now.arcs.list }
    requires small { (v : ℕ) → unsigned_abs (numbers_of x.now v) ≤ 2 ^ 116 }
    requires nodes { length x.now ≤ 2 ^ 16 }
    requires tree { IsTreeOf (length x.now) tree.old }
    requires within { (v : ℕ) → slice_index tree.old.distance.items v ≤ far }
    ensures place { tree.new.place ≡ tree.old.place }
    ensures tree { IsTreeOf (length x.now) tree.new }
    ensures relaxed { OnOk result (Stays problem.now (numbers_of x.now) (flow_of flow.now) tree.old.place.items
        tree.old.via.items tree.new.via.items tree.old.distance.items tree.new.distance.items
        queue.old queue.new number
        ⊎ Nears problem.now (numbers_of x.now) (flow_of flow.now) tree.old.place.items
        tree.old.via.items tree.new.via.items tree.old.distance.items tree.new.distance.items
        queue.old queue.new number) }
{
    let Some(need) = reduced_need(problem, x, flow, number) else {
        return Ok(());
    };
    let list = problem.arcs.list.as_slice();
    let to = head(list, number);
    let reached = tree.distance[tail(list, number)] + need;
    if tree.place[to] == 0 && reached < tree.distance[to] {
        queue.push(reached, to as u32)?;
        tree.distance[to] = reached;
        tree.via[to] = number;
    }
    Ok(())
}

/// Goes over all residual arcs of the node that was settled last.
fn relax_all(
    problem: &Problem,
    links: &Adjacency,
    x: &[i128],
    flow: &[u64],
    tree: &mut Tree,
    queue: &mut Queue,
    node: usize,
) -> Result<(), NoMemory>
    requires ends { EndsInRange (length x.now) problem.now.arcs.list }
    requires links { IsAdjacency (length x.now) problem.now.arcs.list links.now.first.items links.now.before.items }
    requires numbers { length x.now ≡ problem.now.arcs.nodes }
    requires nodes { length x.now ≤ 2 ^ 16 }
    requires flow { length flow.now ≡ length problem.now.arcs.list }
    requires legal { Solves (numbers_of x.now) problem.now.arcs.list }
    requires tight { IsTight problem.now (numbers_of x.now) (flow_of flow.now) }
    requires small { (v : ℕ) → unsigned_abs (numbers_of x.now v) ≤ 2 ^ 116 }
    requires tree { IsTreeOf (length x.now) tree.old }
    requires within { (v : ℕ) → slice_index tree.old.distance.items v ≤ far }
    requires node { node < length x.now }
    requires farthest { IsFarthest tree.old.place.items tree.old.distance.items node }
    ensures place { tree.new.place ≡ tree.old.place }
    ensures tree { IsTreeOf (length x.now) tree.new }
    ensures kept { (rest : Numbers) (count : ℕ)
        → IsSearch problem.now (numbers_of x.now) (flow_of flow.now) rest tree.old.place.items
        tree.old.via.items tree.old.distance.items queue.old count
        → OnOk result (IsSearch problem.now (numbers_of x.now) (flow_of flow.now) rest
        tree.old.place.items tree.new.via.items tree.new.distance.items queue.new count) }
    ensures relaxed { ((r : ℕ) → r / 2 < length problem.now.arcs.list
        → 0 < slice_index tree.old.place.items (tail_of problem.now.arcs.list r)
        → tail_of problem.now.arcs.list r ≢ node
        → IsRelaxed problem.now (numbers_of x.now) (flow_of flow.now) tree.old.distance.items r)
        → OnOk result (AllRelaxed problem.now (numbers_of x.now) (flow_of flow.now) tree.old.place.items
        tree.new.distance.items) }
    ensures falls { OnOk result ((v : ℕ) → slice_index tree.new.distance.items v ≤ slice_index tree.old.distance.items v) }
{
    let before = links.before.as_slice();
    let mut next = links.first.as_slice()[node];
    while next > 0 {
        let number = next - 1;
        relax(problem, x, flow, tree, queue, number)?;
        next = before[number as usize];
    }
    Ok(())
}

/// Takes out the nearest node that isn't settled, with its distance.
fn nearest(queue: &mut Queue, tree: &Tree) -> Option<(u128, usize)>
    requires { (d v : ℕ) → Waits queue.old d v → v < length tree.now.place.items }
    ensures taken { IfSome result (λ e. IsTaken tree.now.place.items queue.old queue.new e.0 e.1) }
    ensures node { IfSome result (λ e. e.1 < length tree.now.place.items) }
    ensures none { IfNone result ((d v : ℕ) → slice_index tree.now.place.items v ≡ 0 → Waits queue.old d v → ⊥) }
{
    let place = tree.place.as_slice();
    while let Some((distance, node)) = queue.pop() {
        if place[node as usize] == 0 {
            return Some((distance, node as usize));
        }
    }
    None
}

/// Raises the numbers of the nodes that stand nearer than `reach`.
fn raise(x: &mut [i128], tree: &Tree, reach: u128)
    requires tree { IsTreeOf (length x.old) tree.now }
    requires reach { reach ≤ 2 ^ 126 }
    requires small { (v : ℕ) → unsigned_abs (numbers_of x.old v) ≤ 2 ^ 116 }
    ensures { (v : ℕ) → v < length x.old → numbers_of x.new v ≡ risen tree.now.distance.items reach (numbers_of x.old) v }
{
    let distance = tree.distance.as_slice();
    for v in 0..x.len() {
        if distance[v] < reach {
            x[v] += (reach - distance[v]) as i128;
        }
    }
}

/// Finds the nearest node in want from a node with a surplus, and raises the numbers so that the way
/// there is free. Its queue takes memory from the tree's allocator.
pub fn find(
    problem: &Problem,
    links: &Adjacency,
    x: &mut [i128],
    flow: &[u64],
    rest: &[i64],
    tree: &mut Tree,
    source: usize,
) -> Result<usize, NoMemory>
    requires problem { IsProblem problem.now }
    requires links { IsAdjacency problem.now.arcs.nodes problem.now.arcs.list links.now.first.items links.now.before.items }
    requires numbers { length x.old ≡ problem.now.arcs.nodes }
    requires flow { length flow.now ≡ length problem.now.arcs.list }
    requires rest { length rest.now ≡ problem.now.arcs.nodes }
    requires tree { IsTreeOf problem.now.arcs.nodes tree.old }
    requires excesses { (v : ℕ) → numbers_of rest.now v ≡ excess problem.now (flow_of flow.now) v }
    requires legal { Solves (numbers_of x.old) problem.now.arcs.list }
    requires tight { IsTight problem.now (numbers_of x.old) (flow_of flow.now) }
    requires low { (v : ℕ) → pos 0 ≤ℤ numbers_of x.old v }
    requires high { (v : ℕ) → numbers_of x.old v ≤ℤ pos (2 ^ 116) }
    requires wants { (v : ℕ) → numbers_of rest.now v <ℤ pos 0 → numbers_of x.old v ≤ℤ pos (2 ^ 60) }
    requires source { source < problem.now.arcs.nodes }
    requires surplus { pos 0 <ℤ numbers_of rest.now source }
    ensures tree { OnOk result (IsTreeOf problem.now.arcs.nodes tree.new) }
    ensures legal { OnOk result (Solves (numbers_of x.new) problem.now.arcs.list) }
    ensures tight { OnOk result (IsTight problem.now (numbers_of x.new) (flow_of flow.now)) }
    ensures low { OnOk result ((v : ℕ) → pos 0 ≤ℤ numbers_of x.new v) }
    ensures high { OnOk result ((v : ℕ) → numbers_of x.new v ≤ℤ (numbers_of x.old v +ℤ pos (2 ^ 61))) }
    ensures wants { OnOk result ((v : ℕ) → numbers_of rest.now v <ℤ pos 0 → numbers_of x.new v ≡ numbers_of x.old v) }
    ensures reached { OnOk result (IsReached problem.now (numbers_of x.new) (flow_of flow.now)
        (numbers_of rest.now) tree.new.place.items tree.new.via.items) }
    ensures wanting { IfOk result (IsWanting tree.new.place.items (numbers_of rest.now)) }
{
    tree.begin(source);
    let mut queue = Queue::new(*tree.place.allocator());
    queue.push(0, source as u32)?;
    let mut count: u32 = 0;
    loop {
        match nearest(&mut queue, tree) {
            None => unreachable!(),
            Some((reach, node)) => {
                count += 1;
                tree.place[node] = count;
                if rest[node] < 0 {
                    raise(x, tree, reach);
                    return Ok(node);
                }
                relax_all(problem, links, x, flow, tree, &mut queue, node)?;
            }
        }
    }
}
