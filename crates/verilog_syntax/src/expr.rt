// The right side of an assignment (IEEE 1364-2005, 5.1).
ghost use Rattle.std.specs.Prelude.{◌≡◌, ◌<◌, length, true, is_some, IfOk};
ghost use Rattle.verilog_syntax.specs.Pieces.{begins_with, piece_token, name_at};
ghost use Rattle.verilog_syntax.specs.Trees.{left, GivesExpr};
ghost use Rattle.verilog_syntax.specs.declared.keyword.Piece.TheVariants as pieces;
ghost use Rattle.verilog_syntax.specs.declared.mark.Mark.TheVariants.{Tilde, OpenBrace};

use crate::cursor::{Fault, Parser};
use crate::keyword::Piece;
use crate::mark::Mark;
use crate::tree::ExprTree;

impl<'t, 'a> Parser<'t, 'a> {
    /// Reads what may stand between `=` and `;` in an assignment.
    pub fn expr(&mut self) -> Result<ExprTree<'a>, Fault>
        ensures exact { GivesExpr result (left self.old) (left self.new) }
        ensures fewer { IfOk result (λ _. length (left self.new) < length (left self.old)) }
    {
        if self.begins(Piece::Sign(Mark::Tilde)) {
            return self.complement();
        }
        if self.begins(Piece::Sign(Mark::OpenBrace)) {
            return self.braces();
        }
        if self.starts_name() {
            return self.named();
        }
        let word = self.literal()?;
        Ok(ExprTree::Literal(word))
    }

    fn complement(&mut self) -> Result<ExprTree<'a>, Fault>
        requires { begins_with (piece_token (pieces.Sign Tilde)) (left self.old) ≡ true }
        ensures exact { GivesExpr result (left self.old) (left self.new) }
        ensures fewer { IfOk result (λ _. length (left self.new) < length (left self.old)) }
    {
        self.expect(&[Piece::Sign(Mark::Tilde)])?;
        let name = self.name()?;
        Ok(ExprTree::Not(name))
    }

    /// Reads a concatenation or a replication.
    fn braces(&mut self) -> Result<ExprTree<'a>, Fault>
        requires { begins_with (piece_token (pieces.Sign OpenBrace)) (left self.old) ≡ true }
        ensures exact { GivesExpr result (left self.old) (left self.new) }
        ensures fewer { IfOk result (λ _. length (left self.new) < length (left self.old)) }
    {
        self.expect(&[Piece::Sign(Mark::OpenBrace)])?;
        if self.starts_name() {
            let high = self.name()?;
            self.expect(&[Piece::Sign(Mark::Comma)])?;
            let low = self.name()?;
            self.expect(&[Piece::Sign(Mark::CloseBrace)])?;
            return Ok(ExprTree::Concat(high, low));
        }
        let times = self.number(128)?;
        self.expect(&[Piece::Sign(Mark::OpenBrace)])?;
        let name = self.name()?;
        self.expect(&[Piece::Sign(Mark::CloseBrace), Piece::Sign(Mark::CloseBrace)])?;
        Ok(ExprTree::Repeat(times as u8, name))
    }

    /// Reads an expression that begins with a name.
    fn named(&mut self) -> Result<ExprTree<'a>, Fault>
        requires { is_some (name_at (left self.old)) ≡ true }
        ensures exact { GivesExpr result (left self.old) (left self.new) }
        ensures fewer { IfOk result (λ _. length (left self.new) < length (left self.old)) }
    {
        let first = self.name()?;
        if self.begins_operator() {
            let sign = self.operator()?;
            let second = self.name()?;
            return Ok(ExprTree::Binary(sign, first, second));
        }
        if self.begins(Piece::Sign(Mark::Question)) {
            self.expect(&[Piece::Sign(Mark::Question)])?;
            let high = self.name()?;
            self.expect(&[Piece::Sign(Mark::Colon)])?;
            let low = self.name()?;
            return Ok(ExprTree::Choose(first, high, low));
        }
        if !self.begins(Piece::Sign(Mark::OpenBracket)) {
            return Ok(ExprTree::Plain(first));
        }
        self.expect(&[Piece::Sign(Mark::OpenBracket)])?;
        if self.starts_name() {
            let address = self.name()?;
            self.expect(&[Piece::Sign(Mark::CloseBracket)])?;
            return Ok(ExprTree::Cell(first, address));
        }
        let highest = self.number(128)?;
        self.expect(&[Piece::Sign(Mark::Colon)])?;
        let lowest = self.number(128)?;
        self.expect(&[Piece::Sign(Mark::CloseBracket)])?;
        Ok(ExprTree::Part(first, highest as u8, lowest as u8))
    }
}
