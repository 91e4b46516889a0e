// Expressions and updates, with their names made numbers.
ghost use Rattle.std.specs.Prelude.{◌≡◌};
ghost use Rattle.rtl_ir.specs.declared.design.Module.{Module};
ghost use Rattle.rtl_text.specs.Text.{ExprIs, UpdateIs};
ghost use Rattle.verilog_syntax.specs.Trees.{expr_view, update_view};
ghost use Rattle.rtl_reading.specs.Uses.{Scope, expr_uses, update_uses};
ghost use Rattle.verilog_read.specs.Built.{HasNets};
ghost use Rattle.verilog_read.specs.Walk.{Gives, HasTables};

use crate::declared::Declared;
use crate::fault::Fault;
use rtl_ir::{Expr, Target, Update};
use verilog_syntax::{ExprTree, UpdateTree};

impl<'a> Declared<'a> {
    /// The right side of an assignment.
    pub(crate) fn expr(&self, tree: ExprTree<'a>) -> Result<Expr, Fault<'a>>
        ensures { (sc : Scope) (m : Module) → HasNets sc m → HasTables m self.now
            → Gives result (expr_uses sc (expr_view tree.entry)) (ExprIs m (expr_view tree.entry)) }
    {
        match tree {
            ExprTree::Plain(a) => {
                let n = self.net(a)?;
                Ok(Expr::Net(n))
            }
            ExprTree::Literal(word) => Ok(Expr::Literal(word)),
            ExprTree::Not(a) => {
                let n = self.net(a)?;
                Ok(Expr::Not(n))
            }
            ExprTree::Binary(sign, a, b) => {
                let left = self.net(a)?;
                let right = self.net(b)?;
                Ok(Expr::Binary(sign, left, right))
            }
            ExprTree::Concat(a, b) => {
                let high = self.net(a)?;
                let low = self.net(b)?;
                Ok(Expr::Concat(high, low))
            }
            ExprTree::Repeat(times, a) => {
                let n = self.net(a)?;
                Ok(Expr::Repeat(times, n))
            }
            ExprTree::Part(a, high, low) => {
                let n = self.net(a)?;
                Ok(Expr::Part(n, high, low))
            }
            ExprTree::Choose(c, a, b) => {
                let condition = self.net(c)?;
                let yes = self.net(a)?;
                let no = self.net(b)?;
                Ok(Expr::Choose(condition, yes, no))
            }
            ExprTree::Cell(k, a) => {
                let memory = self.memory(k)?;
                let address = self.net(a)?;
                Ok(Expr::Cell(memory, address))
            }
        }
    }

    /// An update of a register or of a memory's word.
    pub(crate) fn update(&self, tree: UpdateTree<'a>) -> Result<Update, Fault<'a>>
        ensures { (sc : Scope) (m : Module) → HasNets sc m → HasTables m self.now
            → Gives result (update_uses sc (update_view tree.entry)) (UpdateIs m (update_view tree.entry)) }
    {
        match tree {
            UpdateTree::Register(e, r, v) => {
                let enable = self.net(e)?;
                let register = self.register(r)?;
                let value = self.net(v)?;
                Ok(Update {
                    enable,
                    target: Target::Reg(register),
                    value,
                })
            }
            UpdateTree::Cell(e, k, a, v) => {
                let enable = self.net(e)?;
                let memory = self.memory(k)?;
                let address = self.net(a)?;
                let value = self.net(v)?;
                Ok(Update {
                    enable,
                    target: Target::Cell(memory, address),
                    value,
                })
            }
        }
    }
}
