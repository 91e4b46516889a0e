// The head of a class and of its constructor: rules that speak of a name.
ghost use Rattle.std.specs.Prelude.{◌≡◌, ◌<◌, ◌++◌, ◌∷◌, true, false, Some, None, Option, IfOk, OnOk, MatchOption};
ghost use Rattle.std.specs.Option.{option_map};
ghost use Rattle.maxj_tokens.specs.Reading.{placed_view};
ghost use Rattle.maxj_syntax.specs.Symbols as views;
ghost use Rattle.maxj_syntax.specs.Symbols.{inside_view};
ghost use Rattle.maxj_syntax.specs.Moves as moves;
ghost use Rattle.maxj_syntax.specs.TokenClasses.{class_has};
ghost use Rattle.maxj_syntax.specs.Choosing.{admits, kind_at, name_next, text_next, bound, body};
ghost use Rattle.maxj_syntax.specs.Building.{todo, IsExpanded};

use crate::choosing::admits;
use crate::class::class_has;
use crate::kind::{Kind, Word, kind_of};
use crate::stack::{push_all, sign, step, sub, word};
use crate::symbol::{Action, ClassKind, Effect, Inside, Named, Rule, Symbol, TokenClass};
use crate::tree::NodeKind;
use maxj_tokens::{Placed, Sign, Token};
use mx_base::NoMemory;

/// The kind of the next token.
pub fn next_kind(next: Option<Placed<'_>>) -> Option<Kind>
    ensures { result ≡ kind_at (option_map placed_view next.entry) }
{
    match next {
        Some(token) => Some(kind_of(&token.token)),
        None => None,
    }
}

/// The name that is the next token.
pub fn next_name<'a>(next: Option<Placed<'a>>) -> Option<&'a [u8]>
    ensures { let after = option_map placed_view next.entry in
        MatchOption result (name_next views.ClassName after ≡ false) (λ w. (name_next views.ClassName after ≡ true) × (w.now ≡ text_next after)) }
{
    match next {
        Some(token) => match token.token {
            Token::Word(bytes) => if class_has(TokenClass::Name, kind_of(&token.token)) {
                Some(bytes)
            } else {
                None
            },
            _ => None,
        },
        None => None,
    }
}

/// The name of a class, and the rest of its head.
fn put_class_name<'a>(stack: &mut Vec<Symbol<'a>>, name: &'a [u8]) -> Result<(), NoMemory>
    ensures { OnOk result (todo stack.new.items ≡ bound views.ClassName name.now ++ todo stack.old.items) }
{
    push_all(
        stack,
        &[
            Symbol::Name(name, Effect::Text),
            word(Word::Extends),
            Symbol::Named(Named::Parent(name)),
        ],
    )
}

/// The same where a name comes next. False says that none does.
pub fn push_class_name<'a>(
    stack: &mut Vec<Symbol<'a>>,
    next: Option<Placed<'a>>,
) -> Result<bool, NoMemory>
    ensures { IfOk result (λ taken. IsExpanded (views.Call views.ClassName)
        (option_map placed_view next.entry) (todo stack.old.items) (todo stack.new.items) taken) }
{
    let Some(name) = next_name(next) else {
        return Ok(false)
    };
    put_class_name(stack, name)?;
    Ok(true)
}

/// The name of a constructor's first parameter, and the rest of the constructor.
fn put_first_param<'a>(
    stack: &mut Vec<Symbol<'a>>,
    kind: ClassKind,
    name: &'a [u8],
) -> Result<(), NoMemory>
    ensures { OnOk result (todo stack.new.items ≡ bound (views.FirstParam kind) name.now ++ todo stack.old.items) }
{
    push_all(
        stack,
        &[
            Symbol::Name(name, Effect::Text),
            sub(Rule::Opened(kind)),
            sign(Sign::Close),
            step(Action::Begin(NodeKind::Block)),
            sign(Sign::OpenBrace),
            word(Word::Super),
            sign(Sign::Open),
            Symbol::Name(name, Effect::Skip),
            sub(Rule::SuperRest),
        ],
    )
}

/// The same where a name comes next. False says that none does.
pub fn push_first_param<'a>(
    stack: &mut Vec<Symbol<'a>>,
    kind: ClassKind,
    next: Option<Placed<'a>>,
) -> Result<bool, NoMemory>
    ensures { IfOk result (λ taken. IsExpanded (views.Call (views.FirstParam kind))
        (option_map placed_view next.entry) (todo stack.old.items) (todo stack.new.items) taken) }
{
    let Some(name) = next_name(next) else {
        return Ok(false)
    };
    put_first_param(stack, kind, name)?;
    Ok(true)
}

/// The body of a class.
fn put_body<'a>(
    stack: &mut Vec<Symbol<'a>>,
    parent: Word,
    inside: Inside<'a>,
) -> Result<(), NoMemory>
    ensures { OnOk result (todo stack.new.items ≡ (moves.word parent ∷ body (inside_view inside.entry)) ++ todo stack.old.items) }
{
    push_all(
        stack,
        &[
            word(parent),
            sign(Sign::OpenBrace),
            Symbol::Named(Named::Members(inside)),
            sign(Sign::CloseBrace),
            step(Action::End),
            step(Action::Keep(inside.kind)),
        ],
    )
}

/// What stands behind the name of a class.
pub fn push_parent<'a>(
    stack: &mut Vec<Symbol<'a>>,
    class: &'a [u8],
    next: Option<Placed<'a>>,
) -> Result<bool, NoMemory>
    ensures { IfOk result (λ taken. IsExpanded (views.Call (views.Parent class.now))
        (option_map placed_view next.entry) (todo stack.old.items) (todo stack.new.items) taken) }
{
    let kind = next_kind(next);
    if admits(&[TokenClass::Word(Word::Kernel)], kind) {
        let kernel = Inside {
            kind: ClassKind::Kernel,
            class,
            unmade: true,
        };
        put_body(stack, Word::Kernel, kernel)?;
        return Ok(true);
    }
    if admits(&[TokenClass::Word(Word::CustomManager)], kind) {
        let manager = Inside {
            kind: ClassKind::Manager,
            class,
            unmade: true,
        };
        put_body(stack, Word::CustomManager, manager)?;
        return Ok(true);
    }
    Ok(false)
}
