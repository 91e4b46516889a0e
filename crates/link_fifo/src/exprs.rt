// Assignments and their expressions, by the numbers of nets.
ghost use Rattle.std.specs.Prelude.{◌≡◌};
ghost use Rattle.rtl_ir.specs.declared.design.Expr.TheVariants as exprs;
ghost use Rattle.link_fifo.specs.Netlist.{gets};

use rtl_ir::{Assign, Expr, MemId, NetId, Sign};

/// The assignment of an expression to the net `target`.
pub fn gets(target: u32, expr: Expr) -> Assign
    ensures { result ≡ gets target expr }
{
    Assign {
        target: NetId::new(target),
        expr,
    }
}

/// Each bit of a net turned.
pub fn not(net: u32) -> Expr
    ensures { result ≡ exprs.Not net }
{
    Expr::Not(NetId::new(net))
}

/// An operator with its left and its right net.
pub fn binary(sign: Sign, left: u32, right: u32) -> Expr
    ensures { result ≡ exprs.Binary sign left right }
{
    Expr::Binary(sign, NetId::new(left), NetId::new(right))
}

/// A net above another one.
pub fn concat(high: u32, low: u32) -> Expr
    ensures { result ≡ exprs.Concat high low }
{
    Expr::Concat(NetId::new(high), NetId::new(low))
}

/// The low bits of a net, from the bit number `high` down.
pub fn low_part(net: u32, high: u8) -> Expr
    ensures { result ≡ exprs.Part net high 0 }
{
    Expr::Part(NetId::new(net), high, 0)
}

/// The net `yes` where the net `test` is 1, and the net `no` else.
pub fn choose(test: u32, yes: u32, no: u32) -> Expr
    ensures { result ≡ exprs.Choose test yes no }
{
    Expr::Choose(NetId::new(test), NetId::new(yes), NetId::new(no))
}

/// The word of a memory at the address that a net has.
pub fn cell(memory: u32, address: u32) -> Expr
    ensures { result ≡ exprs.Cell memory address }
{
    Expr::Cell(MemId::new(memory), NetId::new(address))
}
