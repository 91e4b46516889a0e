// An order in which the assignments of a module can be evaluated.
ghost use Rattle.std.specs.Prelude.{◌≡◌, ℕ, ◌≤◌, ◌<◌, ◌^◌, true, List, [], length, Option, Some, slice_get, slice_index, replicate, IfOk};
ghost use Rattle.rtl_ir.specs.declared.design.Assign.{Assign};
ghost use Rattle.rtl_ir.specs.Operands.{reads, IsRead};
ghost use Rattle.verilog_sim.specs.Runnable.{IsRunnable, IsOrderOf};
ghost use Rattle.verilog_sim.specs.Drivers.{AreDrivers, IsGathered};
ghost use Rattle.rtl_ir.specs.declared.design.Port.{Port};
ghost use Rattle.rtl_ir.specs.declared.design.Update.{Update};
ghost use Rattle.verilog_sim.specs.Feeding;
ghost use Rattle.verilog_sim.specs.Feeding.{is_marked, AreMarkedFrom, AreReadsMarked, IsFeeding};
ghost use Rattle.verilog_sim.specs.Feeding.{marked_of, IsSeen, ArePortsIn, AreNetsBelow};
ghost use Rattle.verilog_sim.specs.Feeding.{AreNetsMarked, AreOrders};

use crate::level::by_level;
use digraph::{Found, Row, rank};
use mx_base::{List, NoMemory};
use rtl_ir::{Assign, Expr, Module, NetId, Port, Target, Update};
use std::alloc::Global;

/// Which nets each net reads, and the number of its assignment where it has one.
#[derive(Drop)]
struct Drivers {
    graph: Vec<Row<u32>>,
    by_net: Vec<Option<usize>>,
}

/// The assignments of a module that give the values seen in an edge, each after those whose targets it
/// reads, and in the same order those that feed one of its nets. Literals are in neither.
#[derive(Drop)]
pub(crate) struct Orders {
    pub(crate) edge: Vec<Assign>,
    pub(crate) feeding: Vec<Assign>,
}

/// Both orders of a module whose assignments stand each after those whose targets it reads, and
/// whose nets have these origins, with those that feed this net.
pub(crate) fn both_orders(
    alloc: Global,
    module: &Module,
    origins: &[NetId],
    net: NetId,
) -> Result<Orders, NoMemory>
    requires runnable { IsRunnable module.now }
    requires ordered { IsOrderOf module.now module.now.assigns }
    requires ports { ArePortsIn module.now }
    requires origins { length origins.now ≡ length module.now.nets }
    requires net { net < length module.now.nets }
    ensures { IfOk result (λ o. AreOrders module.now origins.now net o.edge.items o.feeding.items) }
{
    let all = by_level(alloc, module, module.assigns.as_slice())?;
    let seen = seen_nets(alloc, module, origins)?;
    let one = one_net(alloc, module.nets.len(), net)?;
    Ok(Orders {
        edge: feeding(alloc, module, all.as_slice(), seen)?,
        feeding: feeding(alloc, module, all.as_slice(), one)?,
    })
}

/// The assignments of a module, each after those whose targets it reads.
pub(crate) fn in_order(alloc: Global, module: &Module) -> Result<Vec<Assign>, NoMemory>
    requires runnable { IsRunnable module.now }
    requires small { length module.now.nets ≤ 2 ^ 32 }
    ensures { IfOk result (λ order. IsOrderOf module.now order.items) }
{
    let drivers = drivers_of(alloc, module)?;
    match rank(alloc, drivers.graph.as_slice())? {
        Found::Ranks(order) => {
            gather(
                alloc,
                module.assigns.as_slice(),
                drivers.by_net.as_slice(),
                order.nodes.as_slice(),
            )
        }
        Found::Walk(_) => unreachable!(),
    }
}

fn drivers_of(alloc: Global, module: &Module) -> Result<Drivers, NoMemory>
    requires { IsRunnable module.now }
    ensures { IfOk result (λ d. AreDrivers module.now d.graph.items d.by_net.items (length module.now.assigns)) }
{
    let mut graph = unread(alloc, module.nets.len())?;
    let mut by_net = undriven(alloc, module.nets.len())?;
    for (k, assign) in module.assigns.as_slice().iter().enumerate() {
        let reads = operands(alloc, &assign.expr)?;
        graph[assign.target.index()] = Row::own(reads);
        by_net[assign.target.index()] = Some(k);
    }
    Ok(Drivers { graph, by_net })
}

/// The graph of so many nodes that read nothing.
fn unread(alloc: Global, nodes: usize) -> Result<Vec<Row<u32>>, NoMemory>
    ensures { IfOk result (λ g. g.items ≡ replicate nodes []) }
{
    let mut graph = Vec::new(alloc);
    for _node in 0..nodes {
        graph.push(Row::own(List::new(alloc)))?;
    }
    Ok(graph)
}

/// No assignment for each of so many nets.
fn undriven(alloc: Global, nets: usize) -> Result<Vec<Option<usize>>, NoMemory>
    ensures { IfOk result (λ d. d.items ≡ replicate nets None) }
{
    let mut drivers = Vec::new(alloc);
    for _net in 0..nets {
        drivers.push(None)?;
    }
    Ok(drivers)
}

/// The nets that an expression reads, as nodes of a graph.
fn operands(alloc: Global, expr: &Expr) -> Result<List<u32>, NoMemory>
    ensures { IfOk result (λ l. l ≡ reads expr.now) }
{
    let nets = expr.operands(alloc);
    let mut nodes = Vec::new(alloc);
    for net in nets.as_slice() {
        nodes.push(net.index() as u32)?;
    }
    Ok(List::from_vec(nodes))
}

/// The assignments to these nets, in their order.
fn gather(
    alloc: Global,
    assigns: &[Assign],
    by_net: &[Option<usize>],
    nodes: &[u32],
) -> Result<Vec<Assign>, NoMemory>
    requires nodes { (i : ℕ) → i < length nodes.now → slice_index nodes.now i < length by_net.now }
    requires drivers { (n k : ℕ) → slice_get by_net.now n ≡ Some (Some k) → k < length assigns.now }
    ensures { IfOk result (λ order. IsGathered assigns.now by_net.now nodes.now order.items) }
{
    let mut order = Vec::new(alloc);
    for node in nodes {
        if let Some(k) = by_net[*node as usize] {
            order.push(assigns[k])?;
        }
    }
    Ok(order)
}

/// Marks the nets that are seen in an edge: those that are their own origins, those of ports, and
/// those that updates read or write.
fn seen_nets(alloc: Global, module: &Module, origins: &[NetId]) -> Result<Vec<bool>, NoMemory>
    requires runnable { IsRunnable module.now }
    requires ports { ArePortsIn module.now }
    requires origins { length origins.now ≡ length module.now.nets }
    ensures seen { IfOk result (λ marks. (n : ℕ) → IsSeen module.now origins.now n → is_marked marks.items n ≡ true) }
    ensures size { IfOk result (λ marks. length marks.items ≡ length module.now.nets) }
{
    let mut marks = own_marks(alloc, origins)?;
    mark_ports(module.ports.as_slice(), marks.as_mut_slice());
    mark_updates(module.updates.as_slice(), marks.as_mut_slice());
    Ok(marks)
}

/// Marks the nets that are their own origins.
fn own_marks(alloc: Global, origins: &[NetId]) -> Result<Vec<bool>, NoMemory>
    ensures size { IfOk result (λ marks. length marks.items ≡ length origins.now) }
    ensures own { IfOk result (λ marks. (n : ℕ) → n < length origins.now → slice_index origins.now n ≡ n → is_marked marks.items n ≡ true) }
{
    let mut marks = Vec::new(alloc);
    for net in 0..origins.len() {
        marks.push(origins[net].index() == net)?;
    }
    Ok(marks)
}

/// Marks one of so many nets.
fn one_net(alloc: Global, nets: usize, net: NetId) -> Result<Vec<bool>, NoMemory>
    requires { net < nets }
    ensures net { IfOk result (λ marks. is_marked marks.items net ≡ true) }
    ensures size { IfOk result (λ marks. length marks.items ≡ nets) }
{
    let mut marks = vec![in alloc; false; nets]?;
    marks[net.index()] = true;
    Ok(marks)
}

/// Marks the nets of ports.
fn mark_ports(ports: &[Port], marks: &mut [bool])
    requires { (i : ℕ) (p : Port) → slice_get ports.now i ≡ Some p → p.net < length marks.old }
    ensures kept { (n : ℕ) → is_marked marks.old n ≡ true → is_marked marks.new n ≡ true }
    ensures ports { (i : ℕ) (p : Port) → slice_get ports.now i ≡ Some p → is_marked marks.new p.net ≡ true }
{
    for port in ports {
        marks[port.net.index()] = true;
    }
}

/// Marks the nets that updates read, and the registers that they write.
fn mark_updates(updates: &[Update], marks: &mut [bool])
    requires { (i : ℕ) (u : Update) → slice_get updates.now i ≡ Some u → AreNetsBelow (length marks.old) u }
    ensures kept { (n : ℕ) → is_marked marks.old n ≡ true → is_marked marks.new n ≡ true }
    ensures updates { (i : ℕ) (u : Update) → slice_get updates.now i ≡ Some u → AreNetsMarked marks.new u }
{
    for update in updates {
        mark_update(update, marks);
    }
}

/// Marks the nets of an update.
fn mark_update(update: &Update, marks: &mut [bool])
    requires { AreNetsBelow (length marks.old) update.now }
    ensures kept { (n : ℕ) → is_marked marks.old n ≡ true → is_marked marks.new n ≡ true }
    ensures nets { AreNetsMarked marks.new update.now }
{
    let net = match update.target {
        Target::Reg(net) => net,
        Target::Cell(_, address) => address,
    };
    mark(update.enable, marks);
    mark(update.value, marks);
    mark(net, marks);
}

fn mark(net: NetId, marks: &mut [bool])
    requires { net < length marks.old }
    ensures kept { (n : ℕ) → is_marked marks.old n ≡ true → is_marked marks.new n ≡ true }
    ensures net { is_marked marks.new net ≡ true }
{
    marks[net.index()] = true;
}

/// The assignments, but literals, on which the values of marked nets depend, in their order.
fn feeding(
    alloc: Global,
    module: &Module,
    order: &[Assign],
    mut marks: Vec<bool>,
) -> Result<Vec<Assign>, NoMemory>
    requires runnable { IsRunnable module.now }
    requires order { IsOrderOf module.now order.now }
    requires size { length marks.items ≡ length module.now.nets }
    ensures { IfOk result (λ l. IsFeeding order.now l.items (λ n. is_marked marks.items n ≡ true)) }
{
    mark_fed(alloc, module, order, marks.as_mut_slice());
    marked(alloc, order, marks.as_slice())
}

/// Marks all nets on which the values of marked nets depend.
fn mark_fed(alloc: Global, module: &Module, order: &[Assign], marks: &mut [bool])
    requires runnable { IsRunnable module.now }
    requires order { IsOrderOf module.now order.now }
    requires size { length marks.old ≡ length module.now.nets }
    ensures kept { (n : ℕ) → is_marked marks.old n ≡ true → is_marked marks.new n ≡ true }
    ensures marked { AreMarkedFrom order.now marks.new 0 }
{
    let mut left = order.len();
    while left > 0 {
        left -= 1;
        let assign = order[left];
        if marks[assign.target.index()] {
            mark_reads(alloc, &assign.expr, marks);
        }
    }
}

/// Marks the nets that an expression reads.
fn mark_reads(alloc: Global, expr: &Expr, marks: &mut [bool])
    requires { (n : ℕ) → IsRead expr.now n → n < length marks.old }
    ensures { AreReadsMarked expr.now marks.old marks.new }
{
    let nets = expr.operands(alloc);
    for net in nets.as_slice() {
        marks[net.index()] = true;
    }
}

/// The assignments to marked nets, but literals, in their order.
fn marked(alloc: Global, order: &[Assign], marks: &[bool]) -> Result<Vec<Assign>, NoMemory>
    requires { (i : ℕ) (a : Assign) → slice_get order.now i ≡ Some a → a.target < length marks.now }
    ensures { IfOk result (λ l. l.items ≡ marked_of marks.now order.now) }
{
    let mut picked = Vec::new(alloc);
    for assign in order {
        if marks[assign.target.index()] && !is_literal(&assign.expr) {
            picked.push(*assign)?;
        }
    }
    Ok(picked)
}

fn is_literal(expr: &Expr) -> bool
    ensures { result ≡ Feeding.is_literal expr.now }
{
    matches!(expr, Expr::Literal(_))
}
