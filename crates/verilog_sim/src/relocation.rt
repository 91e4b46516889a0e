// Assignments and updates of a module under the numbers that they get in a flat module.
ghost use Rattle.std.specs.Prelude.{◌≡◌, ◌+◌, ◌^◌, ◌<◌};
ghost use Rattle.rtl_ir.specs.declared.design.Expr.TheVariants.{Net as Plain};
ghost use Rattle.verilog_sim.specs.Relocation;
ghost use Rattle.verilog_sim.specs.Relocation.{IsExprMovable, IsAssignMovable, IsTargetMovable, IsUpdateMovable, join_of};

use rtl_ir::{Assign, Expr, MemId, NetId, Port, Target, Update};

/// The numbers of the first net and of the first memory of a part.
#[derive(Clone, Copy, Drop)]
pub(crate) struct First {
    pub(crate) net: usize,
    pub(crate) mem: usize,
}

/// A net counted from a first one on.
pub(crate) fn relocated_net(first_net: usize, net: NetId) -> NetId
    requires { first_net + net < 2 ^ 32 }
    ensures { result ≡ first_net + net }
{
    NetId::new((first_net + net.index()) as u32)
}

/// A memory counted from a first one on.
fn relocated_mem(first_mem: usize, mem: MemId) -> MemId
    requires { first_mem + mem < 2 ^ 32 }
    ensures { result ≡ first_mem + mem }
{
    MemId::new((first_mem + mem.index()) as u32)
}

/// A net that has the value of another one.
#[derive(Clone, Copy, Drop)]
pub(crate) struct Join {
    pub(crate) target: NetId,
    pub(crate) source: NetId,
}

/// How a port is joined to a net, in the direction of the port.
pub(crate) fn joined(first_net: usize, port: Port, net: NetId) -> Join
    requires { first_net + port.net < 2 ^ 32 }
    ensures { join_of first_net port net ≡ record { target = result.target; expr = Plain result.source } }
{
    let inner = relocated_net(first_net, port.net);
    if port.output {
        Join {
            target: net,
            source: inner,
        }
    } else {
        Join {
            target: inner,
            source: net,
        }
    }
}

/// An expression with its nets and its memory moved.
pub(crate) fn relocated_expr(expr: &Expr, first: First) -> Expr
    requires { IsExprMovable first.net first.mem expr.now }
    ensures { result ≡ Relocation.relocated_expr first.net first.mem expr.now }
{
    let net = first.net;
    match *expr {
        Expr::Net(a) => Expr::Net(relocated_net(net, a)),
        Expr::Literal(word) => Expr::Literal(word),
        Expr::Not(a) => Expr::Not(relocated_net(net, a)),
        Expr::Binary(sign, a, b) => Expr::Binary(
            sign,
            relocated_net(net, a),
            relocated_net(net, b),
        ),
        Expr::Concat(a, b) => Expr::Concat(relocated_net(net, a), relocated_net(net, b)),
        Expr::Repeat(times, a) => Expr::Repeat(times, relocated_net(net, a)),
        Expr::Part(a, hi, lo) => Expr::Part(relocated_net(net, a), hi, lo),
        Expr::Choose(a, b, c) => Expr::Choose(
            relocated_net(net, a),
            relocated_net(net, b),
            relocated_net(net, c),
        ),
        Expr::Cell(k, a) => Expr::Cell(relocated_mem(first.mem, k), relocated_net(net, a)),
    }
}

/// An assignment with its nets and its memory moved.
pub(crate) fn relocated_assign(assign: &Assign, first: First) -> Assign
    requires { IsAssignMovable first.net first.mem assign.now }
    ensures { result ≡ Relocation.relocated_assign first.net first.mem assign.now }
{
    Assign {
        target: relocated_net(first.net, assign.target),
        expr: relocated_expr(&assign.expr, first),
    }
}

fn relocated_target(target: Target, first: First) -> Target
    requires { IsTargetMovable first.net first.mem target }
    ensures { result ≡ Relocation.relocated_target first.net first.mem target }
{
    match target {
        Target::Reg(net) => Target::Reg(relocated_net(first.net, net)),
        Target::Cell(mem, address) => {
            let mem = relocated_mem(first.mem, mem);
            Target::Cell(mem, relocated_net(first.net, address))
        }
    }
}

/// An update with its nets and its memory moved.
pub(crate) fn relocated_update(update: &Update, first: First) -> Update
    requires { IsUpdateMovable first.net first.mem update.now }
    ensures { result ≡ Relocation.relocated_update first.net first.mem update.now }
{
    Update {
        enable: relocated_net(first.net, update.enable),
        target: relocated_target(update.target, first),
        value: relocated_net(first.net, update.value),
    }
}
