// Instructions from assignments.
ghost use Rattle.std.specs.Prelude.{◌≡◌, true, ◌<◌, ◌≤◌, length, All, IfOk};
ghost use Rattle.rtl_ir.specs.Typed.{IsTyped};
ghost use Rattle.rtl_ir.specs.Formed.{IsFormedExpr};
ghost use Rattle.rtl_ir.specs.Value.{width_of};
ghost use Rattle.verilog_sim.specs.Instructions.{IsSafe};
ghost use Rattle.verilog_sim.specs.Compiled.{IsBinary, IsStepOf, AreInstructionsOf, IsNarrow};
ghost use Rattle.verilog_sim.specs.Batches.{instructions_of_all};
ghost use Rattle.verilog_sim.specs.Updates.{AreNarrow};
ghost use Rattle.verilog_sim.specs.Runnable.{IsRunnable, IsPartOf, IsOrderOf};
ghost use Rattle.verilog_sim.specs.Feeding.{ArePortsIn};
ghost use Rattle.verilog_sim.specs.Simulates.{IsProgramOf};

use crate::batch::{Batch, batches_of};
use crate::instruction::{Instruction, Step};
use crate::order::both_orders;
use mx_base::NoMemory;
use rtl_ir::{Assign, Expr, Module, NetId, Sign};
use std::alloc::Global;

/// The instructions of a module that are evaluated in an edge, in this order, those of them that feed a net,
/// and whether its updates write words of at most 64 bits alone.
#[derive(Drop)]
pub(crate) struct Program {
    pub(crate) edge: Vec<Batch>,
    pub(crate) feeding: Vec<Batch>,
    pub(crate) narrow: bool,
}

/// The program of a module whose assignments stand each after those whose targets it reads, and
/// whose nets have these origins, with the instructions that feed this net.
pub(crate) fn program_of(
    alloc: Global,
    module: &Module,
    origins: &[NetId],
    net: NetId,
) -> Result<Program, NoMemory>
    requires runnable { IsRunnable module.now }
    requires ordered { IsOrderOf module.now module.now.assigns }
    requires ports { ArePortsIn module.now }
    requires origins { length origins.now ≡ length module.now.nets }
    requires net { net < length module.now.nets }
    ensures { IfOk result (λ p. IsProgramOf module.now origins.now net p) }
{
    let orders = both_orders(alloc, module, origins, net)?;
    Ok(Program {
        edge: compile(alloc, module, orders.edge.as_slice())?,
        feeding: compile(alloc, module, orders.feeding.as_slice())?,
        narrow: are_narrow(module),
    })
}

/// The batches of the instructions of these assignments.
fn compile(alloc: Global, module: &Module, order: &[Assign]) -> Result<Vec<Batch>, NoMemory>
    requires runnable { IsRunnable module.now }
    requires order { IsPartOf module.now order.now }
    ensures { IfOk result (λ b. AreInstructionsOf module.now order.now
        (instructions_of_all b.items)) }
{
    let instructions = instructions_of(alloc, module, order)?;
    batches_of(alloc, instructions.as_slice())
}

/// The instructions of these assignments.
fn instructions_of(
    alloc: Global,
    module: &Module,
    order: &[Assign],
) -> Result<Vec<Instruction>, NoMemory>
    requires runnable { IsRunnable module.now }
    requires order { IsPartOf module.now order.now }
    ensures { IfOk result (λ instructions. AreInstructionsOf module.now order.now instructions.items) }
{
    let mut instructions = Vec::new(alloc);
    for assign in order {
        let width = module.width(assign.target);
        instructions.push(Instruction {
            target: assign.target,
            width,
            narrow: is_narrow(alloc, module, assign),
            step: step_of(module, &assign.expr),
        })?;
    }
    Ok(instructions)
}

/// Whether an assignment gives a net of at most 64 bits its value, and reads such nets alone.
pub(crate) fn is_narrow(alloc: Global, module: &Module, assign: &Assign) -> bool
    ensures { result ≡ true → IsNarrow module.now assign.now }
{
    let nets = assign.expr.operands(alloc);
    for net in nets.as_slice() {
        if module.width(*net) > 64 {
            return false;
        }
    }
    module.width(assign.target) <= 64
}

/// Whether no update writes words of more than 64 bits.
fn are_narrow(module: &Module) -> bool
    ensures { result ≡ true → AreNarrow module.now }
{
    for update in module.updates.as_slice() {
        if module.width(update.value) > 64 {
            return false;
        }
    }
    true
}

/// The step of an expression.
fn step_of(module: &Module, expr: &Expr) -> Step
    requires formed { IsFormedExpr module.now expr.now }
    ensures { IsStepOf module.now expr.now result }
{
    match *expr {
        Expr::Net(a) => Step::Copy(a),
        Expr::Literal(word) => Step::Literal(word.bits()),
        Expr::Not(a) => Step::Not(a),
        Expr::Binary(sign, a, b) => binary(sign, a, b),
        Expr::Concat(a, b) => Step::Concat(a, b, module.width(b)),
        Expr::Repeat(times, a) => Step::Repeat(times, module.width(a), a),
        Expr::Part(a, _, lo) => Step::Part(a, lo),
        Expr::Choose(a, b, c) => Step::Choose(a, b, c),
        Expr::Cell(k, a) => Step::Cell(k, a),
    }
}

fn binary(sign: Sign, a: NetId, b: NetId) -> Step
    ensures { IsBinary sign a b result }
{
    match sign {
        Sign::Add => Step::Add(a, b),
        Sign::Sub => Step::Sub(a, b),
        Sign::Mul => Step::Mul(a, b),
        Sign::Div => Step::Div(a, b),
        Sign::And => Step::And(a, b),
        Sign::Or => Step::Or(a, b),
        Sign::Xor => Step::Xor(a, b),
        Sign::Eq => Step::Eq(a, b),
        Sign::Lt => Step::Lt(a, b),
    }
}
