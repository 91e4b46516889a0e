// The items of a module (IEEE 1364-2005, 12.1).
ghost use Rattle.std.specs.Prelude.{◌≡◌, ◌<◌, ◌≤◌, true, false, length, map, IfOk, MatchResult};
ghost use Rattle.verilog_syntax.specs.Parsing.{Reads, ConnectionOf, ConnectionsOf, ItemsOf};
ghost use Rattle.verilog_syntax.specs.Pieces.{begins_with, begins_item, piece_token};
ghost use Rattle.verilog_syntax.specs.Trees.{left, connection_view, item_view, FailsAt, GivesItem};
ghost use Rattle.verilog_syntax.specs.declared.keyword.Keyword.TheVariants as words;
ghost use Rattle.verilog_syntax.specs.declared.keyword.Piece.TheVariants as pieces;

use crate::cursor::{Fault, Parser};
use crate::keyword::{Keyword, Piece};
use crate::mark::Mark;
use crate::tree::{Connection, ItemTree};
use mx_base::List;
use std::alloc::Global;

const MOST_WORDS: u32 = 1 << 28;

impl<'t, 'a> Parser<'t, 'a> {
    fn wire(&mut self) -> Result<ItemTree<'a>, Fault>
        requires { begins_with (piece_token (pieces.Word words.Wire)) (left self.old) ≡ true }
        ensures exact { GivesItem result (left self.old) (left self.new) }
        ensures fewer { IfOk result (λ _. length (left self.new) < length (left self.old)) }
    {
        self.expect(&[Piece::Word(Keyword::Wire)])?;
        let width = self.range()?;
        let name = self.name()?;
        self.expect(&[Piece::Sign(Mark::Semicolon)])?;
        Ok(ItemTree::Wire(width, name))
    }

    /// Reads a register or a memory.
    fn storage(&mut self) -> Result<ItemTree<'a>, Fault>
        requires { begins_with (piece_token (pieces.Word words.Reg)) (left self.old) ≡ true }
        ensures exact { GivesItem result (left self.old) (left self.new) }
        ensures fewer { IfOk result (λ _. length (left self.new) < length (left self.old)) }
    {
        self.expect(&[Piece::Word(Keyword::Reg)])?;
        let width = self.range()?;
        let name = self.name()?;
        if self.begins(Piece::Sign(Mark::OpenBracket)) {
            self.expect(&[
                Piece::Sign(Mark::OpenBracket),
                Piece::Zero,
                Piece::Sign(Mark::Colon),
            ])?;
            let last = self.number(MOST_WORDS - 1)?;
            self.expect(&[
                Piece::Sign(Mark::CloseBracket),
                Piece::Sign(Mark::Semicolon),
            ])?;
            return Ok(ItemTree::Memory(width, name, last + 1));
        }
        self.expect(&[Piece::Sign(Mark::Semicolon)])?;
        Ok(ItemTree::Register(width, name))
    }

    fn assign(&mut self) -> Result<ItemTree<'a>, Fault>
        requires { begins_with (piece_token (pieces.Word words.Assign)) (left self.old) ≡ true }
        ensures exact { GivesItem result (left self.old) (left self.new) }
        ensures fewer { IfOk result (λ _. length (left self.new) < length (left self.old)) }
    {
        self.expect(&[Piece::Word(Keyword::Assign)])?;
        let name = self.name()?;
        self.expect(&[Piece::Sign(Mark::Assign)])?;
        let expr = self.expr()?;
        self.expect(&[Piece::Sign(Mark::Semicolon)])?;
        Ok(ItemTree::Assign(name, expr))
    }

    fn always(&mut self, alloc: Global) -> Result<ItemTree<'a>, Fault>
        requires { begins_with (piece_token (pieces.Word words.Always)) (left self.old) ≡ true }
        ensures exact { GivesItem result (left self.old) (left self.new) }
        ensures fewer { IfOk result (λ _. length (left self.new) < length (left self.old)) }
    {
        self.expect(&[
            Piece::Word(Keyword::Always),
            Piece::Sign(Mark::At),
            Piece::Sign(Mark::Open),
            Piece::Word(Keyword::Posedge),
            Piece::Clock,
            Piece::Sign(Mark::Close),
            Piece::Word(Keyword::Begin),
        ])?;
        let updates = self.updates(alloc)?;
        self.expect(&[Piece::Word(Keyword::End)])?;
        Ok(ItemTree::Always(updates))
    }

    fn connection(&mut self) -> Result<Connection<'a>, Fault>
        ensures exact { MatchResult result (λ c. Reads ConnectionOf (left self.old)
            (left self.new) (connection_view c)) (λ f. FailsAt ConnectionOf f (left self.old)
            (left self.new)) }
        ensures fewer { IfOk result (λ _. length (left self.new) < length (left self.old)) }
    {
        self.expect(&[Piece::Sign(Mark::Dot)])?;
        let port = self.name()?;
        self.expect(&[Piece::Sign(Mark::Open)])?;
        let net = self.name()?;
        self.expect(&[Piece::Sign(Mark::Close)])?;
        Ok(Connection { port, net })
    }

    /// Reads one connection or more, with commas between them.
    fn connections(&mut self, alloc: Global) -> Result<List<Connection<'a>>, Fault>
        ensures exact { MatchResult result (λ cs. Reads ConnectionsOf (left self.old)
            (left self.new) (map connection_view cs)) (λ f. FailsAt ConnectionsOf f
            (left self.old) (left self.new)) }
        ensures fewer { IfOk result (λ _. length (left self.new) < length (left self.old)) }
    {
        let mut connections = List::new(alloc);
        let first = self.connection()?;
        connections.push(first)?;
        while self.begins(Piece::Sign(Mark::Comma)) {
            self.expect(&[Piece::Sign(Mark::Comma)])?;
            let next = self.connection()?;
            connections.push(next)?;
        }
        Ok(connections)
    }

    fn instance(&mut self, alloc: Global) -> Result<ItemTree<'a>, Fault>
        requires wire { begins_with (piece_token (pieces.Word words.Wire)) (left self.old) ≡ false }
        requires reg { begins_with (piece_token (pieces.Word words.Reg)) (left self.old) ≡ false }
        requires assign { begins_with (piece_token (pieces.Word words.Assign)) (left self.old) ≡ false }
        requires always { begins_with (piece_token (pieces.Word words.Always)) (left self.old) ≡ false }
        ensures exact { GivesItem result (left self.old) (left self.new) }
        ensures fewer { IfOk result (λ _. length (left self.new) < length (left self.old)) }
    {
        let of = self.name()?;
        let name = self.name()?;
        self.expect(&[Piece::Sign(Mark::Open)])?;
        let connections = self.connections(alloc)?;
        self.expect(&[Piece::Sign(Mark::Close), Piece::Sign(Mark::Semicolon)])?;
        Ok(ItemTree::Instance(of, name, connections))
    }

    fn item(&mut self, alloc: Global) -> Result<ItemTree<'a>, Fault>
        ensures exact { GivesItem result (left self.old) (left self.new) }
        ensures fewer { IfOk result (λ _. length (left self.new) < length (left self.old)) }
    {
        if self.begins(Piece::Word(Keyword::Wire)) {
            return self.wire();
        }
        if self.begins(Piece::Word(Keyword::Reg)) {
            return self.storage();
        }
        if self.begins(Piece::Word(Keyword::Assign)) {
            return self.assign();
        }
        if self.begins(Piece::Word(Keyword::Always)) {
            return self.always(alloc);
        }
        self.instance(alloc)
    }

    /// Whether the next token begins an item.
    fn begins_item(&self) -> bool
        ensures { result ≡ begins_item (left self.now) }
    {
        self.begins(Piece::Word(Keyword::Wire))
            || self.begins(Piece::Word(Keyword::Reg))
            || self.begins(Piece::Word(Keyword::Assign))
            || self.begins(Piece::Word(Keyword::Always))
            || self.starts_name()
    }

    /// Reads items up to a token that begins none.
    pub fn items(&mut self, alloc: Global) -> Result<List<ItemTree<'a>>, Fault>
        ensures exact { MatchResult result (λ is. Reads ItemsOf (left self.old) (left self.new)
            (map item_view is)) (λ f. FailsAt ItemsOf f (left self.old) (left self.new)) }
        ensures fewer { IfOk result (λ _. length (left self.new) ≤ length (left self.old)) }
    {
        let mut items = List::new(alloc);
        while self.begins_item() {
            let item = self.item(alloc)?;
            items.push(item)?;
        }
        Ok(items)
    }
}
