// The modules of a text (IEEE 1364-2005, 12.1).
ghost use Rattle.std.specs.Prelude.{◌≡◌, ◌<◌, ◌∷◌, [], List as Items, length, map, IfOk, IfErr, MatchResult};
ghost use Rattle.rtl_text.specs.Tree.{ModuleTree as Tree};
ghost use Rattle.grammar.specs.Grammar.{Derives};
ghost use Rattle.rtl_text.specs.Productions.{File, Is, Choice};
ghost use Rattle.verilog_syntax.specs.Parsing.{Reads, ModuleOf, FileOf};
ghost use Rattle.verilog_syntax.specs.Parsed.{IsRefused, tokens_of, place_of};
ghost use Rattle.verilog_syntax.specs.Trees.{left, module_view, FailsAt};

use crate::cursor::{Fault, Parser};
use crate::keyword::{Keyword, Piece};
use crate::mark::Mark;
use crate::token::Placed;
use crate::tree::ModuleTree;
use mx_base::List;
use std::alloc::Global;

/// Why tokens have no tree.
#[derive(Clone, Copy, Debug, PartialEq, Eq)]
pub enum ParseError {
    /// No memory was left.
    NoMemory,
    /// The place, in bytes, of the first token that no text has after the tokens before it, a number out of range among
    /// them; or the length of the text, where the tokens are too few.
    Syntax(u32),
}

impl<'t, 'a> Parser<'t, 'a> {
    fn module(&mut self, alloc: Global) -> Result<ModuleTree<'a>, Fault>
        ensures exact { MatchResult result (λ m. Reads ModuleOf (left self.old) (left self.new)
            (module_view m)) (λ f. FailsAt ModuleOf f (left self.old) (left self.new)) }
        ensures fewer { IfOk result (λ _. length (left self.new) < length (left self.old)) }
    {
        self.expect(&[Piece::Word(Keyword::Module)])?;
        let name = self.name()?;
        self.expect(&[Piece::Sign(Mark::Open)])?;
        let ports = self.ports(alloc)?;
        self.expect(&[Piece::Sign(Mark::Close), Piece::Sign(Mark::Semicolon)])?;
        let items = self.items(alloc)?;
        self.expect(&[Piece::Word(Keyword::Endmodule)])?;
        Ok(ModuleTree { name, ports, items })
    }

    /// Reads one module or more, up to a token that begins none.
    fn file(&mut self, alloc: Global) -> Result<List<ModuleTree<'a>>, Fault>
        ensures { MatchResult result (λ ms. Reads FileOf (left self.old) (left self.new)
            (map module_view ms)) (λ f. FailsAt FileOf f (left self.old) (left self.new)) }
    {
        let mut modules = List::new(alloc);
        let first = self.module(alloc)?;
        modules.push(first)?;
        while self.begins(Piece::Word(Keyword::Module)) {
            let next = self.module(alloc)?;
            modules.push(next)?;
        }
        Ok(modules)
    }
}

/// The place of a token, or the length of the text where there are no more.
fn place_at(tokens: &[Placed<'_>], token: usize, length: u32) -> u32
    ensures { result ≡ place_of tokens.now length token }
{
    match tokens.get(token) {
        Some(found) => found.at,
        None => length,
    }
}

/// The modules of the tokens of a text of `length` bytes.
pub fn parse<'a>(
    alloc: Global,
    tokens: &[Placed<'a>],
    length: u32,
) -> Result<List<ModuleTree<'a>>, ParseError>
    ensures derived { IfOk result (λ modules. Derives Is Choice (File (map module_view modules) ∷ []) (tokens_of tokens.now)) }
    ensures only { IfOk result (λ modules. (trees : Items Tree) → Derives Is Choice (File trees ∷ []) (tokens_of tokens.now)
        → trees ≡ map module_view modules) }
    ensures refused { IfErr result (λ e. IsRefused tokens.now length e) }
{
    let mut parser = Parser { rest: tokens };
    let outcome = parser.file(alloc);
    let Parser { rest } = parser;
    match outcome {
        Ok(modules) => {
            if rest.is_empty() {
                Ok(modules)
            } else {
                Err(ParseError::Syntax(place_at(tokens, tokens.len() - rest.len(), length)))
            }
        }
        Err(fault) => match fault {
            Fault::NoMemory => Err(ParseError::NoMemory),
            Fault::Syntax => Err(ParseError::Syntax(place_at(
                tokens,
                tokens.len() - rest.len(),
                length,
            ))),
        },
    }
}
