// Nets that are copies of others are read where they come from.
ghost use Rattle.std.specs.Prelude.{◌≡◌, ℕ, ◌^◌, ◌<◌, ◌≤◌, List, length, map, Some, slice_get, slice_index, IfOk};
ghost use Rattle.rtl_ir.specs.declared.design.Update.{Update};
ghost use Rattle.rtl_ir.specs.Operands.{IsRead, target_net};
ghost use Rattle.verilog_sim.specs.Feeding.{AreNetsBelow};
ghost use Rattle.verilog_sim.specs.Runnable.{IsRunnable, IsOrderOf};
ghost use Rattle.verilog_sim.specs.Origins;
ghost use Rattle.verilog_sim.specs.Origins.{AreAtOrigins, DoesSame, with_origin};

use crate::order::in_order;
use mx_base::{List, NoMemory};
use rtl_ir::{Assign, Expr, Module, NetId, Target, Update};
use std::alloc::Global;

/// The origin of each net, which is the net itself or one that it copies, and assignments that read
/// nets there.
#[derive(Drop)]
struct Traced {
    origins: Vec<NetId>,
    assigns: Vec<Assign>,
}

/// Gives a module other assignments and updates, by which it does the same, and reads each copy of a
/// net where it comes from. The assignments stand each after those whose targets it reads. The
/// answer is the origin of each net.
pub(crate) fn read_at_origins(alloc: Global, module: &mut Module) -> Result<Vec<NetId>, NoMemory>
    requires runnable { IsRunnable module.old }
    requires small { length module.old.nets ≤ 2 ^ 32 }
    ensures { IfOk result (λ os. DoesSame module.old module.new os.items) }
{
    let order = in_order(alloc, module)?;
    let traced = trace(alloc, module, order.as_slice())?;
    let origins = traced.origins.as_slice();
    let updates = updates_at(alloc, module.updates.as_slice(), origins)?;
    module.assigns = List::from_vec(traced.assigns);
    module.updates = List::from_vec(updates);
    Ok(traced.origins)
}

/// The assignments of a module, in this order, read at origins.
fn trace(alloc: Global, module: &Module, order: &[Assign]) -> Result<Traced, NoMemory>
    requires runnable { IsRunnable module.now }
    requires small { length module.now.nets ≤ 2 ^ 32 }
    requires order { IsOrderOf module.now order.now }
    ensures { IfOk result (λ t. AreAtOrigins module.now order.now t.origins.items t.assigns.items (length order.now)) }
{
    let mut origins = own_origins(alloc, module.nets.len())?;
    let mut assigns = Vec::new(alloc);
    for assign in order {
        let direct = assign_at(assign, origins.as_slice());
        note_origin(&direct, origins.as_mut_slice());
        assigns.push(direct)?;
    }
    Ok(Traced { origins, assigns })
}

/// Each of so many nets as its own origin.
fn own_origins(alloc: Global, nets: usize) -> Result<Vec<NetId>, NoMemory>
    requires { nets ≤ 2 ^ 32 }
    ensures size { IfOk result (λ l. length l.items ≡ nets) }
    ensures own { IfOk result (λ l. (n : ℕ) → n < nets → slice_index l.items n ≡ n) }
{
    let mut origins = Vec::new(alloc);
    for net in 0..nets {
        origins.push(NetId::new(net as u32))?;
    }
    Ok(origins)
}

/// Notes where the target of an assignment comes from, if it is a copy.
fn note_origin(assign: &Assign, origins: &mut [NetId])
    requires { assign.now.target < length origins.old }
    ensures { origins.new ≡ with_origin assign.now.expr assign.now.target origins.old }
{
    if let Expr::Net(origin) = assign.expr {
        origins[assign.target.index()] = origin;
    }
}

/// The origin of a net.
fn origin(net: NetId, origins: &[NetId]) -> NetId
    requires { net < length origins.now }
    ensures { result ≡ slice_index origins.now net }
{
    origins[net.index()]
}

/// An assignment that reads nets at their origins.
fn assign_at(assign: &Assign, origins: &[NetId]) -> Assign
    requires { (n : ℕ) → IsRead assign.now.expr n → n < length origins.now }
    ensures { result ≡ Origins.assign_at origins.now assign.now }
{
    Assign {
        target: assign.target,
        expr: expr_at(&assign.expr, origins),
    }
}

/// An expression that reads nets at their origins.
fn expr_at(expr: &Expr, origins: &[NetId]) -> Expr
    requires { (n : ℕ) → IsRead expr.now n → n < length origins.now }
    ensures { result ≡ Origins.expr_at origins.now expr.now }
{
    match *expr {
        Expr::Net(a) => Expr::Net(origin(a, origins)),
        Expr::Literal(word) => Expr::Literal(word),
        Expr::Not(a) => Expr::Not(origin(a, origins)),
        Expr::Binary(sign, a, b) => Expr::Binary(sign, origin(a, origins), origin(b, origins)),
        Expr::Concat(a, b) => Expr::Concat(origin(a, origins), origin(b, origins)),
        Expr::Repeat(times, a) => Expr::Repeat(times, origin(a, origins)),
        Expr::Part(a, hi, lo) => Expr::Part(origin(a, origins), hi, lo),
        Expr::Choose(a, b, c) => Expr::Choose(
            origin(a, origins),
            origin(b, origins),
            origin(c, origins),
        ),
        Expr::Cell(k, a) => Expr::Cell(k, origin(a, origins)),
    }
}

/// Updates that read nets at their origins.
fn updates_at(alloc: Global, updates: &[Update], origins: &[NetId]) -> Result<Vec<Update>, NoMemory>
    requires { (i : ℕ) (u : Update) → slice_get updates.now i ≡ Some u → AreNetsBelow (length origins.now) u }
    ensures { IfOk result (λ l. l.items ≡ map (Origins.update_at origins.now) updates.now) }
{
    let mut direct = Vec::new(alloc);
    for update in updates {
        direct.push(update_at(update, origins))?;
    }
    Ok(direct)
}

fn update_at(update: &Update, origins: &[NetId]) -> Update
    requires { AreNetsBelow (length origins.now) update.now }
    ensures { result ≡ Origins.update_at origins.now update.now }
{
    Update {
        enable: origin(update.enable, origins),
        target: target_at(update.target, origins),
        value: origin(update.value, origins),
    }
}

fn target_at(target: Target, origins: &[NetId]) -> Target
    requires { target_net target < length origins.now }
    ensures { result ≡ Origins.target_at origins.now target }
{
    match target {
        Target::Reg(net) => Target::Reg(net),
        Target::Cell(mem, address) => Target::Cell(mem, origin(address, origins)),
    }
}
