// The value of `done`.
ghost use Rattle.std.specs.Prelude.{◌≡◌, ◌+◌, ◌*◌, ◌≤◌, ◌^◌, ◌++◌, ◌∷◌, [], length, IfOk, OnOk};
ghost use Rattle.rtl_ir.specs.declared.design.Expr.TheVariants as exprs;
ghost use Rattle.rtl_ir.specs.declared.design.Sign.TheVariants.{And};
ghost use Rattle.link_fifo.specs.Netlist.{gets};
ghost use Rattle.project_rtl.specs.Tops.{ended_assigns, empty_assigns};

use mx_base::{List, NoMemory};
use rtl_ir::{Assign, Expr, NetId, Sign};
use std::alloc::Global;

// The assignment of an expression to the net `target`.
fn gets(target: u32, expr: Expr) -> Assign
    ensures { result ≡ gets target expr }
{
    Assign {
        target: NetId::new(target),
        expr,
    }
}

// Adds the assignment of whether `last` and the net of a kernel that has ended hold.
fn ended_too(assigns: &mut List<Assign>, next: u32, last: u32, ended: u32) -> Result<(), NoMemory>
    ensures { OnOk result (assigns.new
        ≡ assigns.old ++ gets next (exprs.Binary And last ended) ∷ []) }
{
    let (last, ended) = (NetId::new(last), NetId::new(ended));
    assigns.push(gets(next, Expr::Binary(Sign::And, last, ended)))
}

// The assignments for a FIFO that is valid by a net: whether it isn't, and whether that and `last`
// hold.
fn empty_too(assigns: &mut List<Assign>, next: u32, last: u32, valid: u32) -> Result<(), NoMemory>
    requires { next + 1 ≤ 2 ^ 26 }
    ensures { OnOk result (assigns.new ≡ assigns.old
        ++ gets next (exprs.Not valid) ∷ gets (next + 1) (exprs.Binary And last next) ∷ []) }
{
    let (last, here) = (NetId::new(last), NetId::new(next));
    assigns.push(gets(next, Expr::Not(NetId::new(valid))))?;
    assigns.push(gets(next + 1, Expr::Binary(Sign::And, last, here)))
}

// Adds the assignments of whether FIFOs are empty, where each is valid by one of these nets, and the
// net `before` is 1 where the kernels have ended. The wires are numbered from `from`.
fn add_empty(
    assigns: &mut List<Assign>,
    done: u32,
    from: u32,
    before: u32,
    valids: &[u32],
) -> Result<(), NoMemory>
    requires { from + 2 * length valids.now ≤ 2 ^ 25 }
    ensures { OnOk result (assigns.new
        ≡ assigns.old ++ empty_assigns done from before valids.now) }
{
    let (mut next, mut last) = (from, before);
    for valid in valids {
        empty_too(assigns, next, last, *valid)?;
        last = next + 1;
        next += 2;
    }
    assigns.push(gets(done, Expr::Net(NetId::new(last))))?;
    Ok(())
}

/// The assignments of `done`: it is 1 where the kernels have ended, which the net `first` says of
/// the first one and these nets of the others, and where the FIFOs are empty, which are valid by
/// these nets. The wires are numbered from `from`.
pub(crate) fn done_assigns(
    alloc: Global,
    done: u32,
    from: u32,
    first: u32,
    ended: &[u32],
    valids: &[u32],
) -> Result<List<Assign>, NoMemory>
    requires { from + length ended.now + 2 * length valids.now ≤ 2 ^ 25 }
    ensures { IfOk result (λ l. l ≡ ended_assigns done from first ended.now valids.now) }
{
    let mut assigns = List::new(alloc);
    let (mut next, mut last) = (from, first);
    for net in ended {
        ended_too(&mut assigns, next, last, *net)?;
        last = next;
        next += 1;
    }
    add_empty(&mut assigns, done, next, last, valids)?;
    Ok(assigns)
}
