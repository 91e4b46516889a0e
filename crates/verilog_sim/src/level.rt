// Assignments by how far they stand from registers and inputs.
ghost use Rattle.std.specs.Prelude.{◌≡◌, ℕ, ◌<◌, ◌≤◌, length, Some, slice_get, slice_index, IfOk, map};
ghost use Rattle.rtl_ir.specs.declared.design.Assign.{Assign};
ghost use Rattle.rtl_ir.specs.Operands.{IsRead};
ghost use Rattle.verilog_sim.specs.Runnable.{IsRunnable, IsOrderOf};
ghost use Rattle.verilog_sim.specs.Levels.{AreLevels, IsAbove, AreRanked, assign_of};

use crate::compile::is_narrow;
use mx_base::NoMemory;
use rtl_ir::{Assign, Expr, Module, Sign};
use std::alloc::Global;

/// The kinds of batches, in the order in which they follow one another within a level.
#[derive(Clone, Copy, Drop, PartialEq, Eq, PartialOrd, Ord)]
pub(crate) enum Kind {
    General,
    Alias,
    Complement,
    Sum,
    Difference,
    Product,
    Conjunction,
    Disjunction,
    ExclusiveOr,
    Equality,
    Less,
    Concatenation,
    PartSelect,
    Choice,
    MemoryRead,
}

/// An assignment, the level of its target, and the kind of its batches.
#[derive(Clone, Copy, Drop)]
pub(crate) struct Ranked {
    pub(crate) level: u64,
    pub(crate) kind: Kind,
    pub(crate) assign: Assign,
}

/// The same assignments by level, and those of one level by kind.
pub(crate) fn by_level(
    alloc: Global,
    module: &Module,
    order: &[Assign],
) -> Result<Vec<Assign>, NoMemory>
    requires runnable { IsRunnable module.now }
    requires order { IsOrderOf module.now order.now }
    ensures { IfOk result (λ sorted. IsOrderOf module.now sorted.items) }
{
    let levels = levels_of(alloc, module, order)?;
    let mut ranked = rank_all(alloc, module, order, levels.as_slice())?;
    ranked.sort_by_key(|item| item.kind)?;
    ranked.sort_by_key(|item| item.level)?;
    assigns_of(alloc, ranked.as_slice())
}

/// The level of each net: 0 where it has no assignment, and else one above all nets that its
/// assignment reads.
fn levels_of(alloc: Global, module: &Module, order: &[Assign]) -> Result<Vec<u64>, NoMemory>
    requires runnable { IsRunnable module.now }
    requires order { IsOrderOf module.now order.now }
    ensures levels { IfOk result (λ levels. AreLevels order.now levels.items) }
    ensures nets { IfOk result (λ levels. length levels.items ≡ length module.now.nets) }
{
    let mut levels = vec![in alloc; 0; module.nets.len()]?;
    for assign in order {
        levels[assign.target.index()] = level_above(alloc, &assign.expr, levels.as_slice());
    }
    Ok(levels)
}

/// The least level above those of the nets that an expression reads.
fn level_above(alloc: Global, expr: &Expr, levels: &[u64]) -> u64
    requires { (n : ℕ) → IsRead expr.now n → n < length levels.now }
    ensures { IsAbove expr.now levels.now result }
{
    let nets = expr.operands(alloc);
    let mut level = 0;
    for net in nets.as_slice() {
        level = greater(level, levels[net.index()]);
    }
    level.saturating_add(1)
}

fn greater(a: u64, b: u64) -> u64
    ensures left { a ≤ result }
    ensures right { b ≤ result }
    ensures least { (bound : ℕ) → a ≤ bound → b ≤ bound → result ≤ bound }
{
    if a < b { b } else { a }
}

fn rank_all(
    alloc: Global,
    module: &Module,
    order: &[Assign],
    levels: &[u64],
) -> Result<Vec<Ranked>, NoMemory>
    requires { (i : ℕ) (a : Assign) → slice_get order.now i ≡ Some a → a.target < length levels.now }
    ensures { IfOk result (λ items. AreRanked levels.now order.now items.items) }
{
    let mut items = Vec::new(alloc);
    for assign in order {
        items.push(Ranked {
            level: levels[assign.target.index()],
            kind: kind_of(alloc, module, assign),
            assign: *assign,
        })?;
    }
    Ok(items)
}

fn assigns_of(alloc: Global, ranked: &[Ranked]) -> Result<Vec<Assign>, NoMemory>
    ensures { IfOk result (λ assigns. assigns.items ≡ map assign_of ranked.now) }
{
    let mut assigns = Vec::new(alloc);
    for item in ranked {
        assigns.push(item.assign)?;
    }
    Ok(assigns)
}

/// The kind of the batches that the instruction of an assignment may stand in.
fn kind_of(alloc: Global, module: &Module, assign: &Assign) -> Kind {
    if !is_narrow(alloc, module, assign) {
        return Kind::General;
    }
    match assign.expr {
        Expr::Literal(_) | Expr::Repeat(_, _) => Kind::General,
        Expr::Net(_) => Kind::Alias,
        Expr::Not(_) => Kind::Complement,
        Expr::Binary(sign, _, _) => kind_of_sign(sign),
        Expr::Concat(_, _) => Kind::Concatenation,
        Expr::Part(_, _, _) => Kind::PartSelect,
        Expr::Choose(_, _, _) => Kind::Choice,
        Expr::Cell(_, _) => Kind::MemoryRead,
    }
}

fn kind_of_sign(sign: Sign) -> Kind {
    match sign {
        Sign::Add => Kind::Sum,
        Sign::Sub => Kind::Difference,
        Sign::Mul => Kind::Product,
        Sign::Div => Kind::General,
        Sign::And => Kind::Conjunction,
        Sign::Or => Kind::Disjunction,
        Sign::Xor => Kind::ExclusiveOr,
        Sign::Eq => Kind::Equality,
        Sign::Lt => Kind::Less,
    }
}
