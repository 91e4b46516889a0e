// A guess at the times and the flow, by the network simplex method (Ahuja, Magnanti and Orlin, Network
// Flows, 1993, chapter 11). Nothing rests on it: `certified`, `take_up` and `first_times` test what they
// take of it. So no number here is trusted to be a place in a list, and every loop has a bound.
use cycle_find::Arc;
use schedule_problem::Problem;
use std::alloc::{AllocError, Global};

/// No node, or no arc.
const NONE: u32 = u32::MAX;

/// More than a walk in the tree has steps.
const STEPS: u32 = 1 << 18;

/// Times and a flow that may be the best.
#[derive(Drop)]
pub struct Guess {
    pub times: Vec<i64>,
    pub flow: Vec<u64>,
}

/// How a node hangs in the tree: the arc between it and its parent, or `NONE` where that is one of those
/// between nodes and the root that are no arcs of the problem; whether it leads up, from the node to its
/// parent; and what it carries.
#[derive(Clone, Copy)]
struct Link {
    arc: u32,
    rises: bool,
    carries: u64,
}

/// The arc by which the tree is cut: it stands between this node and its parent.
#[derive(Clone, Copy)]
struct Leaving {
    node: u32,
    amount: u64,
    at_start: bool,
}

/// A spanning tree with a root besides the nodes, whose arcs alone carry anything. Of each node: its
/// parent, how it hangs there, its first child, the children of its parent beside it, how many nodes
/// stand below it, with itself, and its time, by which the arcs of the tree have no slack. Each is a
/// list of its own, since a walk in the tree reads few of them. The arcs of the problem stand in
/// another order, so that arcs of one part of the problem stand apart, each with its number.
#[derive(Drop)]
struct Simplex {
    parents: Vec<u32>,
    arcs_up: Vec<u32>,
    rise: Vec<bool>,
    carried: Vec<u64>,
    children: Vec<u32>,
    nexts: Vec<u32>,
    befores: Vec<u32>,
    sizes: Vec<u32>,
    times: Vec<i64>,
    arcs: Vec<Arc>,
    numbers: Vec<u32>,
    block: u32,
    place: u32,
}

/// Guesses from legal times and what each node has to send.
pub fn guessed(
    alloc: Global,
    problem: &Problem,
    times: &[i64],
    rest: &[i64],
) -> Result<Guess, AllocError> {
    let mut simplex = Simplex::new(alloc, problem)?;
    simplex.begin(alloc, times, rest)?;
    let limit = simplex.arcs.len().saturating_mul(simplex.arcs.len());
    for _ in 0..limit {
        match simplex.entering() {
            Some(arc) if simplex.pivot(arc) => {}
            _ => break,
        }
    }
    simplex.said(alloc)
}

/// The nodes with their times, the earliest first.
fn by_time(alloc: Global, times: &[i64]) -> Result<Vec<(i64, u32)>, AllocError> {
    let mut order = Vec::new(alloc);
    let mut node = 0u32;
    for time in times {
        order.push((*time, node))?;
        node = node.wrapping_add(1);
    }
    order.sort_unstable();
    Ok(order)
}

/// About the square root of the count.
fn stride(count: usize) -> usize {
    for root in 10..1usize << 16 {
        if root * root >= count {
            return root;
        }
    }
    1 << 16
}

fn number_of(place: usize) -> u32 {
    if place < NONE as usize {
        place as u32
    } else {
        NONE
    }
}

/// Whether an arc has no slack and leads from a node to one behind it, by time and then by number.
fn leads_on(arc: &Arc, times: &[i64]) -> bool {
    let start = at(times, arc.from, 0);
    let end = at(times, arc.to, 0);
    slack(times, arc) == 0 && (start < end || start == end && arc.from < arc.to)
}

/// How far the ends of an arc stand apart beyond what it needs.
fn slack(times: &[i64], arc: &Arc) -> i64 {
    let apart = at(times, arc.to, 0).wrapping_sub(at(times, arc.from, 0));
    apart.wrapping_sub(arc.need)
}

/// Of these arcs, of which the first has this place, the one that lacks most, if any lacks something.
fn worst(arcs: &[Arc], times: &[i64], first: u32) -> Option<u32> {
    let mut least = 0i64;
    let mut found = None;
    let mut place = first;
    for arc in arcs {
        let slack = slack(times, arc);
        if slack < least {
            least = slack;
            found = Some(place);
        }
        place = place.wrapping_add(1);
    }
    found
}

/// The item at a place, or another one where none stands there.
fn at<T: Copy>(items: &[T], place: u32, other: T) -> T {
    match items.get(place as usize) {
        Some(item) => *item,
        None => other,
    }
}

/// Puts an item in place of the one that stands there.
fn put<T: Copy>(items: &mut [T], place: u32, item: T) {
    if let Some(old) = items.get_mut(place as usize) {
        *old = item;
    }
}

impl Simplex {
    /// The arcs of the problem, and nodes that hang nowhere.
    fn new(alloc: Global, problem: &Problem) -> Result<Simplex, AllocError> {
        let nodes = problem.arcs.nodes as usize + 1;
        let list = problem.arcs.list.as_slice();
        let block = stride(list.len());
        let mut simplex = Simplex {
            parents: vec![in alloc; NONE; nodes]?,
            arcs_up: vec![in alloc; NONE; nodes]?,
            rise: vec![in alloc; false; nodes]?,
            carried: vec![in alloc; 0u64; nodes]?,
            children: vec![in alloc; NONE; nodes]?,
            nexts: vec![in alloc; NONE; nodes]?,
            befores: vec![in alloc; NONE; nodes]?,
            sizes: vec![in alloc; 1u32; nodes]?,
            times: vec![in alloc; 0i64; nodes]?,
            arcs: Vec::new(alloc),
            numbers: Vec::new(alloc),
            block: number_of(block),
            place: 0,
        };
        simplex.take(list, block)?;
        Ok(simplex)
    }

    /// Takes the arcs of the problem in an order by which each part of so many is spread over them.
    fn take(&mut self, list: &[Arc], block: usize) -> Result<(), AllocError> {
        for first in 0..block {
            for row in 0..=block {
                let number = row.wrapping_mul(block).wrapping_add(first);
                if let Some(arc) = list.get(number) {
                    self.arcs.push(*arc)?;
                    self.numbers.push(number_of(number))?;
                }
            }
        }
        Ok(())
    }

    /// Hangs the nodes for the start. From the latest node on, each in want hangs by an arc without
    /// slack, where it can, from a node before it, which then has so much less to send, or wants it in
    /// its turn. All others hang at the root. So whatever leads down carries something, as the method
    /// asks for its end.
    fn begin(&mut self, alloc: Global, times: &[i64], rest: &[i64]) -> Result<(), AllocError> {
        let far = self.far();
        let order = by_time(alloc, times)?;
        let mut net = Vec::from_slice(alloc, rest)?;
        let mut by = self.arcs_from_before(alloc, times)?;
        for (_, v) in order.iter().rev() {
            let wants = at(&net, *v, 0);
            if wants < 0 {
                let from = self.arc(at(&by, *v, NONE)).from;
                let left = at(&net, from, 0).wrapping_add(wants);
                put(&mut net, from, left);
            } else {
                put(&mut by, *v, NONE);
            }
        }
        for (time, v) in &order {
            let place = at(&by, *v, NONE);
            let left = at(&net, *v, 0);
            if place == NONE {
                self.hang_at_root(*v, *time, left, far);
            } else {
                self.hang_by(*v, place, left.unsigned_abs());
            }
        }
        for (_, v) in order.iter().rev() {
            self.count_above(*v);
        }
        Ok(())
    }

    fn root(&self) -> u32 {
        number_of(self.parents.len()).wrapping_sub(1)
    }

    fn parent(&self, v: u32) -> u32 {
        at(&self.parents, v, NONE)
    }

    fn size(&self, v: u32) -> u32 {
        at(&self.sizes, v, 0)
    }

    fn time(&self, v: u32) -> i64 {
        at(&self.times, v, 0)
    }

    fn arc(&self, place: u32) -> Arc {
        let none = Arc {
            from: NONE,
            to: NONE,
            need: 0,
        };
        at(&self.arcs, place, none)
    }

    fn link(&self, v: u32) -> Link {
        Link {
            arc: at(&self.arcs_up, v, NONE),
            rises: at(&self.rise, v, false),
            carries: at(&self.carried, v, 0),
        }
    }

    /// More than any walk over arcs is worth.
    fn far(&self) -> i64 {
        let mut most = 0i64;
        for arc in &self.arcs {
            most = most.max(arc.need).max(arc.need.wrapping_neg());
        }
        let nodes = number_of(self.parents.len()) as i64;
        most.wrapping_add(1).wrapping_mul(nodes).wrapping_mul(2)
    }

    /// For each node an arc without slack from a node before it, or `NONE`.
    fn arcs_from_before(&self, alloc: Global, times: &[i64]) -> Result<Vec<u32>, AllocError> {
        let mut by = vec![in alloc; NONE; self.parents.len()]?;
        let mut place = 0u32;
        for arc in &self.arcs {
            if leads_on(arc, times) && at(&by, arc.to, 0) == NONE {
                put(&mut by, arc.to, place);
            }
            place = place.wrapping_add(1);
        }
        Ok(by)
    }

    /// Hangs a node at the root, so far from it that no arc of the problem is worse.
    fn hang_at_root(&mut self, v: u32, time: i64, net: i64, far: i64) {
        let rises = net >= 0;
        let time = if rises {
            time.wrapping_add(far)
        } else {
            time.wrapping_sub(far)
        };
        let link = Link {
            arc: NONE,
            rises,
            carries: net.unsigned_abs(),
        };
        let root = self.root();
        self.hang(v, root, link, time);
    }

    /// Hangs a node by an arc that leads to it.
    fn hang_by(&mut self, v: u32, place: u32, carries: u64) {
        let arc = self.arc(place);
        let time = self.time(arc.from).wrapping_add(arc.need);
        let link = Link {
            arc: place,
            rises: false,
            carries,
        };
        self.hang(v, arc.from, link, time);
    }

    /// Hangs a node for the first time. The sizes stay.
    fn hang(&mut self, v: u32, parent: u32, link: Link, time: i64) {
        put(&mut self.times, v, time);
        self.join_to(v, parent, link);
    }

    /// Counts a node and all below it for its parent.
    fn count_above(&mut self, v: u32) {
        let parent = self.parent(v);
        let size = self.size(parent).wrapping_add(self.size(v));
        put(&mut self.sizes, parent, size);
    }

    /// Hangs a node that hangs nowhere. The sizes above it stay.
    fn join_to(&mut self, v: u32, parent: u32, link: Link) {
        let child = at(&self.children, parent, NONE);
        put(&mut self.parents, v, parent);
        put(&mut self.arcs_up, v, link.arc);
        put(&mut self.rise, v, link.rises);
        put(&mut self.carried, v, link.carries);
        put(&mut self.befores, v, NONE);
        put(&mut self.nexts, v, child);
        put(&mut self.befores, child, v);
        put(&mut self.children, parent, v);
    }

    /// Adds to the sizes from a node up, as far as another one, whose size stays.
    fn grow(&mut self, start: u32, end: u32, by: u32) {
        let mut v = start;
        for _ in 0..STEPS {
            if v == end {
                break;
            }
            let Some(size) = self.sizes.get_mut(v as usize) else {
                break;
            };
            *size = size.wrapping_add(by);
            v = self.parent(v);
        }
    }

    /// Takes a node from its parent. The sizes above it stay.
    fn cut(&mut self, v: u32) {
        let before = at(&self.befores, v, NONE);
        let next = at(&self.nexts, v, NONE);
        if before == NONE {
            let parent = self.parent(v);
            put(&mut self.children, parent, next);
        } else {
            put(&mut self.nexts, before, next);
        }
        put(&mut self.befores, next, before);
    }

    fn slack(&self, arc: &Arc) -> i64 {
        slack(&self.times, arc)
    }

    /// An arc whose need isn't met: the worst of a block.
    fn entering(&mut self) -> Option<u32> {
        let count = self.arcs.len();
        let mut first = self.place as usize;
        let mut left = count;
        for _ in 0..=count {
            let start = first.min(count);
            let end = start.saturating_add(self.block as usize).min(count);
            let found = worst(&self.arcs[start..end], &self.times, number_of(start));
            first = if end < count { end } else { 0 };
            if found.is_some() {
                self.place = number_of(first);
                return found;
            }
            left = left.saturating_sub(end.saturating_sub(start));
            if left == 0 {
                break;
            }
        }
        None
    }

    /// Lets an arc into the tree and another out.
    fn pivot(&mut self, place: u32) -> bool {
        let arc = self.arc(place);
        let join = self.meeting(arc.from, arc.to);
        let leaving = self.leaving(&arc, join);
        if leaving.node == NONE {
            return false;
        }
        if leaving.amount > 0 {
            self.send(arc.from, join, leaving.amount, false);
            self.send(arc.to, join, leaving.amount, true);
        }
        self.exchange(place, &leaving, join);
        true
    }

    /// Where the ways from two nodes to the root meet.
    fn meeting(&self, first: u32, second: u32) -> u32 {
        let mut v = first;
        let mut u = second;
        for _ in 0..STEPS {
            if v == u {
                break;
            }
            if self.size(v) <= self.size(u) {
                v = self.parent(v);
            } else {
                u = self.parent(u);
            }
        }
        v
    }

    /// The arc of the cycle that is the first to carry nothing.
    fn leaving(&self, arc: &Arc, join: u32) -> Leaving {
        let mut found = Leaving {
            node: NONE,
            amount: u64::MAX,
            at_start: true,
        };
        let mut v = arc.from;
        for _ in 0..STEPS {
            if v == join {
                break;
            }
            let carries = at(&self.carried, v, 0);
            if at(&self.rise, v, false) && carries < found.amount {
                found = Leaving {
                    node: v,
                    amount: carries,
                    at_start: true,
                };
            }
            v = self.parent(v);
        }
        let mut v = arc.to;
        for _ in 0..STEPS {
            if v == join {
                break;
            }
            let carries = at(&self.carried, v, 0);
            if !at(&self.rise, v, true) && carries <= found.amount {
                found = Leaving {
                    node: v,
                    amount: carries,
                    at_start: false,
                };
            }
            v = self.parent(v);
        }
        found
    }

    /// Sends an amount along the way from a node up, or down to it.
    fn send(&mut self, start: u32, join: u32, amount: u64, up: bool) {
        let mut v = start;
        for _ in 0..STEPS {
            if v == join {
                break;
            }
            let more = at(&self.rise, v, up) == up;
            if let Some(carries) = self.carried.get_mut(v as usize) {
                *carries = if more {
                    carries.wrapping_add(amount)
                } else {
                    carries.wrapping_sub(amount)
                };
            }
            v = self.parent(v);
        }
    }

    /// Hangs what the leaving arc cuts off by the entering arc, which carries what was sent. The cycle
    /// meets the way to the root at `join`.
    fn exchange(&mut self, place: u32, leaving: &Leaving, join: u32) {
        let arc = self.arc(place);
        let (top, parent) = if leaving.at_start {
            (arc.from, arc.to)
        } else {
            (arc.to, arc.from)
        };
        let slack = self.slack(&arc);
        let by = if leaving.at_start {
            slack
        } else {
            slack.wrapping_neg()
        };
        let link = Link {
            arc: place,
            rises: leaving.at_start,
            carries: leaving.amount,
        };
        let size = self.size(leaving.node);
        let above = self.parent(leaving.node);
        self.grow(above, join, size.wrapping_neg());
        self.grow(parent, join, size);
        self.turn(top, parent, link, leaving.node, size);
        self.shift(top, size, by);
    }

    /// Turns the way from a node up to the one that was cut off, so that the first is on top.
    fn turn(&mut self, top: u32, above: u32, link: Link, last: u32, size: u32) {
        let mut v = top;
        let mut parent = above;
        let mut link = link;
        let mut less = 0u32;
        for _ in 0..STEPS {
            let old = self.link(v);
            let old_parent = self.parent(v);
            let old_size = self.size(v);
            self.cut(v);
            self.join_to(v, parent, link);
            put(&mut self.sizes, v, size.wrapping_sub(less));
            if v == last {
                break;
            }
            less = old_size;
            parent = v;
            link = Link {
                arc: old.arc,
                rises: !old.rises,
                carries: old.carries,
            };
            v = old_parent;
        }
    }

    /// Moves the times of a node and of all below it, so many nodes, against those of all others: of
    /// the smaller part, since only their distances count.
    fn shift(&mut self, top: u32, size: u32, by: i64) {
        let root = self.root();
        if size <= root / 2 {
            self.shift_below(top, NONE, by);
        } else {
            self.shift_below(root, top, by.wrapping_neg());
        }
    }

    /// Moves the times of a node and of all below it, but for those of another one and below that.
    fn shift_below(&mut self, top: u32, but: u32, by: i64) {
        let mut v = top;
        for _ in 0..STEPS {
            let mut child = NONE;
            if v != but {
                let time = self.time(v).wrapping_add(by);
                put(&mut self.times, v, time);
                child = at(&self.children, v, NONE);
            }
            if child == NONE {
                v = self.behind(v, top);
                if v == NONE {
                    break;
                }
            } else {
                v = child;
            }
        }
    }

    /// The node behind a node and all below it, where nodes stand before those below them; `NONE`
    /// behind all that are below `top`.
    fn behind(&self, v: u32, top: u32) -> u32 {
        let mut v = v;
        for _ in 0..STEPS {
            if v == top {
                return NONE;
            }
            let next = at(&self.nexts, v, NONE);
            if next != NONE {
                return next;
            }
            v = self.parent(v);
        }
        NONE
    }

    /// The times, the earliest of them 0, and the flow.
    fn said(&self, alloc: Global) -> Result<Guess, AllocError> {
        let root = self.root();
        let mut first = i64::MAX;
        for v in 0..root {
            first = first.min(self.time(v));
        }
        let mut times = Vec::new(alloc);
        for v in 0..root {
            times.push(self.time(v).wrapping_sub(first))?;
        }
        let mut flow = vec![in alloc; 0u64; self.arcs.len()]?;
        for v in 0..root {
            let link = self.link(v);
            put(&mut flow, at(&self.numbers, link.arc, NONE), link.carries);
        }
        Ok(Guess { times, flow })
    }
}
