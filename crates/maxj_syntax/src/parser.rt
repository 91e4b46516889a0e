// The parser of tokens: the symbols that are to be read stand on a stack.
ghost use Rattle.std.specs.Prelude.{◌≡◌, ◌<◌, ◌≤◌, ◌&&◌, true, false, Some, None, Option, length, drop, IfOk, IfErr, IfSome, IfNone};
ghost use Rattle.std.specs.List.{All};
ghost use Rattle.std.specs.Option.{option_map};
ghost use Rattle.maxj_tokens.specs.Reading.{placed_view, token_view};
ghost use Rattle.grammar.specs.Stack.{head_of};
ghost use Rattle.maxj_syntax.specs.Symbols as views;
ghost use Rattle.maxj_syntax.specs.Symbols.{symbol_view, named_view};
ghost use Rattle.maxj_syntax.specs.Productions.{is_name};
ghost use Rattle.maxj_syntax.specs.TokenClasses.{class_has};
ghost use Rattle.maxj_syntax.specs.Kinds.{kind_of};
ghost use Rattle.maxj_syntax.specs.Choosing.{kind_at};
ghost use Rattle.maxj_syntax.specs.Building.{todo, IsExpanded, IsChosen, IsRule, IsTaken};
ghost use Rattle.maxj_syntax.specs.Building.{IsRefused, token_of_word, Reached, Settles, EndsIn};
ghost use Rattle.maxj_syntax.specs.Building.{IsTheFile, IsTheFileOf, FailsToParse};
ghost use Rattle.maxj_syntax.specs.Cells.{cells_of};
ghost use Rattle.maxj_syntax.specs.Plain.{Ranged, SettlesRanged};
ghost use Rattle.maxj_syntax.specs.Ranges.{AreInRange};
ghost use Rattle.maxj_tokens.specs.Faults.{HasNone, IsOutside};

use crate::build::{self, Builder};
use crate::choosing::choice;
use crate::class::class_has;
use crate::heads::{push_class_name, push_first_param, push_parent};
use crate::kind::{Kind, Word, kind_of};
use crate::members::{push_after, push_head, push_member};
use crate::stack::push_fixed;
use crate::symbol::{Effect, Fixed, Named, Rule, Symbol, TokenClass};
use crate::tree::{Program, SyntaxTree};
use maxj_tokens::{Placed, Token, Tokens};
use mx_base::NoMemory;
use std::alloc::Global;

/// Why tokens are no source.
#[derive(Clone, Copy, Debug, PartialEq, Eq)]
pub enum ParseError {
    /// No memory was left.
    NoMemory,
    /// No source has the token at this place after those before it; or the source ends too early, at its size.
    Misplaced(u32),
}

impl From<NoMemory> for ParseError {
    ghost from_gives = { λ _ e. e ≡ NoMemory };

    ghost use Rattle.maxj_syntax.specs.declared.parser.ParseError.TheVariants.{NoMemory};

    fn from(_: NoMemory) -> Self {
        ParseError::NoMemory
    }
}

/// Puts the choice of a rule on the stack that speaks of a name. False says that there is none.
fn push_named<'a>(
    stack: &mut Vec<Symbol<'a>>,
    named: Named<'a>,
    next: Option<Placed<'a>>,
) -> Result<bool, NoMemory>
    ensures { IfOk result (λ taken. IsExpanded (views.Call (named_view named.entry))
        (option_map placed_view next.entry) (todo stack.old.items) (todo stack.new.items) taken) }
{
    match named {
        Named::Parent(class) => push_parent(stack, class, next),
        Named::Members(inside) => push_member(stack, inside, next),
        Named::Head(inside) => push_head(stack, inside, next),
        Named::After(inside, first) => push_after(stack, inside, first, next),
    }
}

/// Puts the choice of a rule on the stack. False says that there is none.
fn push_choice(
    stack: &mut Vec<Symbol<'_>>,
    rule: Rule,
    kind: Option<Kind>,
) -> Result<bool, NoMemory>
    ensures { IfOk result (λ taken. IsChosen rule kind (todo stack.old.items) (todo stack.new.items) taken) }
{
    match choice(rule, kind) {
        None => Ok(false),
        Some(symbols) => {
            push_fixed(stack, symbols)?;
            Ok(true)
        }
    }
}

/// Puts the choice of a rule on the stack, whatever rule it is. False says that there is none.
fn expand<'a>(
    stack: &mut Vec<Symbol<'a>>,
    rule: Symbol<'a>,
    next: Option<Placed<'a>>,
    kind: Option<Kind>,
) -> Result<bool, NoMemory>
    requires { kind ≡ kind_at (option_map placed_view next) }
    ensures { IfOk result (λ taken. IsRule (symbol_view rule.entry)
        → IsExpanded (symbol_view rule.entry) (option_map placed_view next.entry)
        (todo stack.old.items) (todo stack.new.items) taken) }
{
    match rule {
        Symbol::Fixed(Fixed::Sub(rule)) => push_choice(stack, rule, kind),
        Symbol::Fixed(Fixed::ClassName) => push_class_name(stack, next),
        Symbol::Fixed(Fixed::FirstParam(kind)) => push_first_param(stack, kind, next),
        Symbol::Named(named) => push_named(stack, named, next),
        _ => Ok(false),
    }
}

/// With what the stack begins once its rules are expanded and its steps done.
#[derive(Clone, Copy)]
pub enum Settled<'a> {
    Token(TokenClass, Effect),
    Name(&'a [u8], Effect),
    Empty,
    Stuck,
}

fn token_at<'a>(tokens: &Tokens<'a>, at: usize) -> Option<Placed<'a>>
    ensures { head_of (drop at tokens.now) ≡ option_map placed_view result }
{
    tokens.get(at)
}

/// Expands rules and does steps before the token with the number `at`, which is of this kind, until
/// the stack begins with a token or is empty.
fn settle<'a>(
    alloc: Global,
    stack: &mut Vec<Symbol<'a>>,
    builder: &mut Builder,
    tokens: &Tokens<'a>,
    at: usize,
    kind: Option<Kind>,
) -> Result<Settled<'a>, NoMemory>
    requires ends { All EndsIn tokens.now }
    requires within { at ≤ length tokens.now }
    requires kind { kind ≡ kind_at (head_of (drop at tokens.now)) }
    requires reached { Reached tokens.now (drop at tokens.now) (todo stack.old.items) builder.old }
    requires ranged { Ranged tokens.now (todo stack.old.items) builder.old }
    ensures reached { IfOk result (λ s. Settles s tokens.now (drop at tokens.now) (todo stack.new.items) builder.new) }
    ensures ranged { IfOk result (λ s.
        SettlesRanged s tokens.now (todo stack.new.items) builder.new) }
{
    let next = token_at(tokens, at);
    while let Some(top) = stack.pop() {
        match top {
            Symbol::Name(name, effect) => return Ok(Settled::Name(name, effect)),
            Symbol::Named(_) => if !expand(stack, top, next, kind)? {
                return Ok(Settled::Stuck);
            },
            Symbol::Fixed(fixed) => match fixed {
                Fixed::Mark(class, effect) => return Ok(Settled::Token(class, effect)),
                Fixed::Act(action) => build::act(alloc, builder, action, tokens, at)?,
                _ => if !expand(stack, top, next, kind)? {
                    return Ok(Settled::Stuck);
                },
            },
        }
    }
    Ok(Settled::Empty)
}

fn is_word(token: &Token<'_>, name: &[u8]) -> bool
    ensures yes { result ≡ true → token_view token.now ≡ token_of_word name.now }
    ensures no { result ≡ false → token_view token.now ≡ token_of_word name.now → ⊥ }
{
    match *token {
        Token::Word(bytes) => bytes == name,
        _ => false,
    }
}

/// Whether the token, of this kind, is this name.
fn is_this_name(token: &Token<'_>, kind: Kind, name: &[u8]) -> bool
    requires { kind ≡ kind_of (token_view token.now) }
    ensures yes { result ≡ true → (token_view token.now ≡ token_of_word name.now) × (is_name name.now ≡ true) }
    ensures no { result ≡ false → (token_view token.now ≡ token_of_word name.now) × (is_name name.now ≡ true) → ⊥ }
{
    is_word(token, name) && class_has(TokenClass::Name, kind)
}

/// What the next token, of this kind, does, where it is the one that the stack begins with.
fn taken(settled: Settled<'_>, token: &Token<'_>, kind: Kind) -> Option<Effect>
    requires { kind ≡ kind_of (token_view token.now) }
    ensures some { IfSome result (λ e. IsTaken settled.entry (token_view token.now) e) }
    ensures none { IfNone result (IsRefused settled.entry (token_view token.now)) }
{
    match settled {
        Settled::Token(class, effect) => if class_has(class, kind) {
            Some(effect)
        } else {
            None
        },
        Settled::Name(name, effect) => if is_this_name(token, kind, name) {
            Some(effect)
        } else {
            None
        },
        _ => None,
    }
}

/// Reads all tokens: the stack has the file on it before, and the builder holds it after. The source
/// has `size` bytes.
fn read_tokens<'a>(
    alloc: Global,
    stack: &mut Vec<Symbol<'a>>,
    builder: &mut Builder,
    tokens: &Tokens<'a>,
    size: u32,
) -> Result<(), ParseError>
    requires ends { All EndsIn tokens.now }
    requires reached { Reached tokens.now tokens.now (todo stack.old.items) builder.old }
    requires ranged { Ranged tokens.now (todo stack.old.items) builder.old }
    ensures ok { IfOk result (λ _.
        IsTheFileOf tokens.now (cells_of tokens.now builder.new.nodes) builder.new.classes) }
    ensures numbers { IfOk result (λ _. HasNone IsOutside tokens.now
        → AreInRange (cells_of tokens.now builder.new.nodes)) }
    ensures err { IfErr result (λ e. FailsToParse tokens.now size e) }
{
    let count = tokens.len();
    for at in 0..count {
        let token = tokens.at(at);
        let kind = kind_of(&token.token);
        let settled = settle(alloc, stack, builder, tokens, at, Some(kind))?;
        let Some(effect) = taken(settled, &token.token, kind) else {
            return Err(ParseError::Misplaced(token.at));
        };
        build::read(alloc, builder, effect, tokens, at)?;
    }
    match settle(alloc, stack, builder, tokens, count, None)? {
        Settled::Empty => Ok(()),
        _ => Err(ParseError::Misplaced(size)),
    }
}

/// The classes of the source that the tokens are, and the nodes of their trees.
fn build_classes(alloc: Global, tokens: &Tokens<'_>, size: u32) -> Result<Builder, ParseError>
    requires { All EndsIn tokens.now }
    ensures ok { IfOk result (λ b. IsTheFileOf tokens.now (cells_of tokens.now b.nodes) b.classes) }
    ensures numbers { IfOk result (λ b. HasNone IsOutside tokens.now
        → AreInRange (cells_of tokens.now b.nodes)) }
    ensures err { IfErr result (λ e. FailsToParse tokens.now size e) }
{
    let mut stack = Vec::new(alloc);
    push_fixed(&mut stack, &[Fixed::Sub(Rule::File)])?;
    let mut builder = build::bottom(alloc, tokens.len())?;
    read_tokens(alloc, &mut stack, &mut builder, tokens, size)?;
    Ok(builder)
}

/// The classes of the source that the tokens are, and the tree of their nodes. The source has `size`
/// bytes. No tokens have two trees. Where no token is out of profile, the numbers of all nodes are
/// in range.
pub fn parse_tokens(alloc: Global, tokens: Tokens<'_>, size: u32) -> Result<Program<'_>, ParseError>
    requires { All EndsIn tokens }
    ensures ok { IfOk result (λ p. IsTheFile tokens.entry p) }
    ensures numbers { IfOk result (λ p. HasNone IsOutside tokens.entry → AreInRange p.tree) }
    ensures err { IfErr result (λ e. FailsToParse tokens.entry size e) }
{
    let builder = build_classes(alloc, &tokens, size)?;
    Ok(Program {
        classes: builder.classes,
        tree: SyntaxTree::new(tokens, builder.nodes),
    })
}
