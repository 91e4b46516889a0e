// The ports of a module (IEEE 1364-2005, 12.3).
ghost use Rattle.std.specs.Prelude.{◌≡◌, ◌<◌, true, false, map, length, IfOk, MatchResult};
ghost use Rattle.verilog_syntax.specs.Parsing.{Reads, RangeOf, PortOf, PortsOf};
ghost use Rattle.verilog_syntax.specs.Pieces.{begins_with, piece_token};
ghost use Rattle.verilog_syntax.specs.declared.keyword.Keyword.TheVariants as words;
ghost use Rattle.verilog_syntax.specs.declared.keyword.Piece.TheVariants as pieces;
ghost use Rattle.verilog_syntax.specs.Trees.{left, port_view, FailsAt};

use crate::cursor::{Fault, Parser};
use crate::keyword::{Keyword, Piece};
use crate::mark::Mark;
use crate::tree::PortTree;
use mx_base::List;
use std::alloc::Global;

impl<'t, 'a> Parser<'t, 'a> {
    /// Reads a range `[width - 1:0]`, and gives the width.
    pub fn range(&mut self) -> Result<u8, Fault>
        ensures exact { MatchResult result (λ w. Reads RangeOf (left self.old) (left self.new) w) (λ f. FailsAt RangeOf f (left self.old) (left self.new)) }
        ensures fewer { IfOk result (λ _. length (left self.new) < length (left self.old)) }
    {
        self.expect(&[Piece::Sign(Mark::OpenBracket)])?;
        let high = self.number(127)?;
        self.expect(&[
            Piece::Sign(Mark::Colon),
            Piece::Zero,
            Piece::Sign(Mark::CloseBracket),
        ])?;
        Ok(high as u8 + 1)
    }

    fn input(&mut self) -> Result<PortTree<'a>, Fault>
        requires { begins_with (piece_token (pieces.Word words.Output)) (left self.old) ≡ false }
        ensures exact { MatchResult result (λ p. Reads PortOf (left self.old) (left self.new)
            (port_view p)) (λ f. FailsAt PortOf f (left self.old) (left self.new)) }
        ensures fewer { IfOk result (λ _. length (left self.new) < length (left self.old)) }
    {
        self.expect(&[Piece::Word(Keyword::Input), Piece::Word(Keyword::Wire)])?;
        let width = self.range()?;
        let name = self.name()?;
        Ok(PortTree::Input(width, name))
    }

    fn output(&mut self) -> Result<PortTree<'a>, Fault>
        requires { begins_with (piece_token (pieces.Word words.Output)) (left self.old) ≡ true }
        ensures exact { MatchResult result (λ p. Reads PortOf (left self.old) (left self.new)
            (port_view p)) (λ f. FailsAt PortOf f (left self.old) (left self.new)) }
        ensures fewer { IfOk result (λ _. length (left self.new) < length (left self.old)) }
    {
        self.expect(&[Piece::Word(Keyword::Output), Piece::Word(Keyword::Wire)])?;
        let width = self.range()?;
        let name = self.name()?;
        Ok(PortTree::Output(width, name))
    }

    fn port(&mut self) -> Result<PortTree<'a>, Fault>
        ensures exact { MatchResult result (λ p. Reads PortOf (left self.old) (left self.new)
            (port_view p)) (λ f. FailsAt PortOf f (left self.old) (left self.new)) }
        ensures fewer { IfOk result (λ _. length (left self.new) < length (left self.old)) }
    {
        if self.begins(Piece::Word(Keyword::Output)) {
            self.output()
        } else {
            self.input()
        }
    }

    /// Reads one port or more, with commas between them.
    pub fn ports(&mut self, alloc: Global) -> Result<List<PortTree<'a>>, Fault>
        ensures exact { MatchResult result (λ ps. Reads PortsOf (left self.old) (left self.new)
            (map port_view ps)) (λ f. FailsAt PortsOf f (left self.old) (left self.new)) }
        ensures fewer { IfOk result (λ _. length (left self.new) < length (left self.old)) }
    {
        let mut ports = List::new(alloc);
        let first = self.port()?;
        ports.push(first)?;
        while self.begins(Piece::Sign(Mark::Comma)) {
            self.expect(&[Piece::Sign(Mark::Comma)])?;
            let next = self.port()?;
            ports.push(next)?;
        }
        Ok(ports)
    }
}
