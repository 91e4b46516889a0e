// The stack of symbols that are to be read.
ghost use Rattle.std.specs.Prelude.{◌≡◌, ◌<◌, ◌++◌, Some, None, map, OnOk};
ghost use Rattle.maxj_syntax.specs.Symbols as views;
ghost use Rattle.maxj_syntax.specs.Symbols.{fixed_view, symbol_view};
ghost use Rattle.maxj_syntax.specs.Moves as moves;
ghost use Rattle.maxj_syntax.specs.Building.{todo};

use crate::kind::Word;
use crate::symbol::{Action, Effect, Fixed, Rule, Symbol, TokenClass};
use maxj_tokens::Sign;
use mx_base::NoMemory;

/// Puts symbols on the stack, the first one on top.
pub fn push_all<'a>(stack: &mut Vec<Symbol<'a>>, symbols: &[Symbol<'a>]) -> Result<(), NoMemory>
    ensures { OnOk result (todo stack.new.items ≡ map symbol_view symbols.now ++ todo stack.old.items) }
{
    match symbols.split_last() {
        None => Ok(()),
        Some((last, front)) => {
            stack.push(*last)?;
            push_all(stack, front)
        }
    }
}

/// The same of symbols that speak of no name.
pub fn push_fixed(stack: &mut Vec<Symbol<'_>>, symbols: &[Fixed]) -> Result<(), NoMemory>
    ensures { OnOk result (todo stack.new.items ≡ map fixed_view symbols.now ++ todo stack.old.items) }
{
    match symbols.split_last() {
        None => Ok(()),
        Some((last, front)) => {
            stack.push(Symbol::Fixed(*last))?;
            push_fixed(stack, front)
        }
    }
}

pub fn mark<'a>(class: TokenClass, effect: Effect) -> Symbol<'a>
    ensures { symbol_view result ≡ views.Mark class effect }
{
    Symbol::Fixed(Fixed::Mark(class, effect))
}

/// This sign.
pub fn sign<'a>(sign: Sign) -> Symbol<'a>
    ensures { symbol_view result ≡ moves.sign sign }
{
    mark(TokenClass::Sign(sign), Effect::Skip)
}

/// This word.
pub fn word<'a>(word: Word) -> Symbol<'a>
    ensures { symbol_view result ≡ moves.word word }
{
    mark(TokenClass::Word(word), Effect::Skip)
}

pub fn sub<'a>(rule: Rule) -> Symbol<'a>
    ensures { symbol_view result ≡ views.Sub rule }
{
    Symbol::Fixed(Fixed::Sub(rule))
}

pub fn step<'a>(action: Action) -> Symbol<'a>
    ensures { symbol_view result ≡ views.Act action }
{
    Symbol::Fixed(Fixed::Act(action))
}
