// The update blocks of a module (IEEE 1364-2005, 9.2.2).
ghost use Rattle.std.specs.Prelude.{◌≡◌, ◌<◌, ◌≤◌, length, map, IfOk, MatchResult};
ghost use Rattle.verilog_syntax.specs.Parsing.{Reads, UpdateOf, UpdatesOf};
ghost use Rattle.verilog_syntax.specs.Trees.{left, update_view, FailsAt};

use crate::cursor::{Fault, Parser};
use crate::keyword::{Keyword, Piece};
use crate::mark::Mark;
use crate::tree::UpdateTree;
use mx_base::List;
use std::alloc::Global;

impl<'t, 'a> Parser<'t, 'a> {
    fn update(&mut self) -> Result<UpdateTree<'a>, Fault>
        ensures exact { MatchResult result (λ u. Reads UpdateOf (left self.old) (left self.new)
            (update_view u)) (λ f. FailsAt UpdateOf f (left self.old) (left self.new)) }
        ensures fewer { IfOk result (λ _. length (left self.new) < length (left self.old)) }
    {
        self.expect(&[Piece::Word(Keyword::If), Piece::Sign(Mark::Open)])?;
        let enable = self.name()?;
        self.expect(&[Piece::Sign(Mark::Close)])?;
        let target = self.name()?;
        if self.begins(Piece::Sign(Mark::OpenBracket)) {
            self.expect(&[Piece::Sign(Mark::OpenBracket)])?;
            let address = self.name()?;
            self.expect(&[
                Piece::Sign(Mark::CloseBracket),
                Piece::Sign(Mark::LessEqual),
            ])?;
            let value = self.name()?;
            self.expect(&[Piece::Sign(Mark::Semicolon)])?;
            return Ok(UpdateTree::Cell(enable, target, address, value));
        }
        self.expect(&[Piece::Sign(Mark::LessEqual)])?;
        let value = self.name()?;
        self.expect(&[Piece::Sign(Mark::Semicolon)])?;
        Ok(UpdateTree::Register(enable, target, value))
    }

    /// Reads updates up to a token that begins none.
    pub fn updates(&mut self, alloc: Global) -> Result<List<UpdateTree<'a>>, Fault>
        ensures exact { MatchResult result (λ us. Reads UpdatesOf (left self.old)
            (left self.new) (map update_view us)) (λ f. FailsAt UpdatesOf f (left self.old)
            (left self.new)) }
        ensures fewer { IfOk result (λ _. length (left self.new) ≤ length (left self.old)) }
    {
        let mut updates = List::new(alloc);
        while self.begins(Piece::Word(Keyword::If)) {
            let update = self.update()?;
            updates.push(update)?;
        }
        Ok(updates)
    }
}
