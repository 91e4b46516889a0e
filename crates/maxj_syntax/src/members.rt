// The members of a class, of which one is the constructor: it has the name of the class.
ghost use Rattle.std.specs.Prelude.{◌≡◌, ◌<◌, ◌++◌, ◌&&◌, codes, true, false, Some, Option, IfOk, OnOk};
ghost use Rattle.std.specs.Str.{bytes_eq};
ghost use Rattle.std.specs.Option.{option_map};
ghost use Rattle.maxj_tokens.specs.Reading.{placed_view};
ghost use Rattle.maxj_syntax.specs.Symbols as views;
ghost use Rattle.maxj_syntax.specs.Symbols.{inside_view};
ghost use Rattle.maxj_syntax.specs.Moves.{and_members, is_own};
ghost use Rattle.maxj_syntax.specs.Choosing.{admits, member_choice, word_choice, name_choice, ctor_choice, memory_choice, type_choice, void_choice};
ghost use Rattle.maxj_syntax.specs.Building.{todo, IsExpanded};

use crate::choosing::{admits, admits_if};
use crate::heads::{next_kind, next_name};
use crate::kind::Word;
use crate::stack::{mark, push_all, sign, step, sub, word};
use crate::symbol::{Action, Effect, FirstName, Inside, Named, Rule, Symbol, TokenClass};
use crate::tree::NodeKind;
use maxj_tokens::{Placed, Sign};
use mx_base::NoMemory;

/// A member, and those behind it.
fn put_member<'a>(stack: &mut Vec<Symbol<'a>>, inside: Inside<'a>) -> Result<(), NoMemory>
    ensures { OnOk result (todo stack.new.items ≡ member_choice (inside_view inside.entry) ++ todo stack.old.items) }
{
    push_all(
        stack,
        &[
            step(Action::Begin(NodeKind::Field)),
            sub(Rule::Mods),
            Symbol::Named(Named::Head(inside)),
        ],
    )
}

/// The same where one begins.
pub fn push_member<'a>(
    stack: &mut Vec<Symbol<'a>>,
    inside: Inside<'a>,
    next: Option<Placed<'a>>,
) -> Result<bool, NoMemory>
    ensures { IfOk result (λ taken. IsExpanded (views.Call
        (views.Members (inside_view inside.entry))) (option_map placed_view next.entry)
        (todo stack.old.items) (todo stack.new.items) taken) }
{
    let begins = [
        TokenClass::Modifier,
        TokenClass::Word(Word::Void),
        TokenClass::TypeWord,
        TokenClass::Name,
    ];
    if admits(&begins, next_kind(next)) {
        put_member(stack, inside)?;
        return Ok(true);
    }
    Ok(!inside.unmade)
}

/// The end of a field or method behind its type, and the members behind it.
fn put_members<'a>(stack: &mut Vec<Symbol<'a>>, inside: Inside<'a>) -> Result<(), NoMemory>
    ensures { OnOk result (todo stack.new.items ≡ and_members (inside_view inside.entry) ++ todo stack.old.items) }
{
    push_all(
        stack,
        &[
            step(Action::Into),
            mark(TokenClass::Name, Effect::Text),
            sub(Rule::Declares),
            step(Action::Into),
            Symbol::Named(Named::Members(inside)),
        ],
    )
}

/// A method without a result.
fn put_void<'a>(stack: &mut Vec<Symbol<'a>>, inside: Inside<'a>) -> Result<(), NoMemory>
    ensures { OnOk result (todo stack.new.items ≡ void_choice (inside_view inside.entry) ++ todo stack.old.items) }
{
    push_all(
        stack,
        &[
            mark(TokenClass::Word(Word::Void), Effect::Push(NodeKind::Plain)),
            step(Action::Into),
            mark(TokenClass::Name, Effect::Text),
            step(Action::Turn(NodeKind::Method)),
            sub(Rule::MethodRest),
            step(Action::Into),
            Symbol::Named(Named::Members(inside)),
        ],
    )
}

/// A field or method whose type is a word of the language.
fn put_word<'a>(stack: &mut Vec<Symbol<'a>>, inside: Inside<'a>) -> Result<(), NoMemory>
    ensures { OnOk result (todo stack.new.items ≡ word_choice (inside_view inside.entry) ++ todo stack.old.items) }
{
    push_all(
        stack,
        &[
            mark(TokenClass::TypeWord, Effect::Push(NodeKind::Plain)),
            sub(Rule::Dims),
            step(Action::Into),
            mark(TokenClass::Name, Effect::Text),
            sub(Rule::Declares),
            step(Action::Into),
            Symbol::Named(Named::Members(inside)),
        ],
    )
}

/// A member that begins with a name.
fn put_name<'a>(
    stack: &mut Vec<Symbol<'a>>,
    inside: Inside<'a>,
    name: &'a [u8],
    first: FirstName,
) -> Result<(), NoMemory>
    ensures { OnOk result (todo stack.new.items ≡ name_choice (inside_view inside.entry) name.now first.own first.memory ++ todo stack.old.items) }
{
    push_all(
        stack,
        &[
            Symbol::Name(name, Effect::Push(NodeKind::Plain)),
            Symbol::Named(Named::After(inside, first)),
        ],
    )
}

/// Whether a member that begins with the name may be the constructor.
fn is_own(inside: Inside<'_>, name: &[u8]) -> bool
    ensures { result ≡ is_own (inside_view inside.entry) name.now }
{
    inside.unmade && name == inside.class
}

fn is_memory(name: &[u8]) -> bool
    ensures { result ≡ bytes_eq name.now (codes "Memory") }
{
    name == Word::Memory.bytes()
}

/// A member behind its modifiers.
pub fn push_head<'a>(
    stack: &mut Vec<Symbol<'a>>,
    inside: Inside<'a>,
    next: Option<Placed<'a>>,
) -> Result<bool, NoMemory>
    ensures { IfOk result (λ taken. IsExpanded (views.Call
        (views.Head (inside_view inside.entry))) (option_map placed_view next.entry)
        (todo stack.old.items) (todo stack.new.items) taken) }
{
    if let Some(name) = next_name(next) {
        let first = FirstName {
            own: is_own(inside, name),
            memory: is_memory(name),
        };
        put_name(stack, inside, name, first)?;
        return Ok(true);
    }
    let kind = next_kind(next);
    if admits(&[TokenClass::Word(Word::Void)], kind) {
        put_void(stack, inside)?;
        return Ok(true);
    }
    if admits(&[TokenClass::TypeWord], kind) {
        put_word(stack, inside)?;
        return Ok(true);
    }
    Ok(false)
}

/// The rest of a constructor behind its name, and the members behind it.
fn put_ctor<'a>(stack: &mut Vec<Symbol<'a>>, inside: Inside<'a>) -> Result<(), NoMemory>
    ensures { OnOk result (todo stack.new.items ≡ ctor_choice (inside_view inside.entry) ++ todo stack.old.items) }
{
    let made = Inside {
        kind: inside.kind,
        class: inside.class,
        unmade: false,
    };
    push_all(
        stack,
        &[
            step(Action::Named),
            step(Action::Turn(NodeKind::Ctor)),
            sign(Sign::Open),
            sub(Rule::Opening(inside.kind)),
            step(Action::Into),
            Symbol::Named(Named::Members(made)),
        ],
    )
}

/// The rest of a field or method behind the first word of its type.
fn put_type<'a>(stack: &mut Vec<Symbol<'a>>, inside: Inside<'a>) -> Result<(), NoMemory>
    ensures { OnOk result (todo stack.new.items ≡ type_choice (inside_view inside.entry) ++ todo stack.old.items) }
{
    push_all(
        stack,
        &[
            sub(Rule::Dims),
            step(Action::Into),
            mark(TokenClass::Name, Effect::Text),
            sub(Rule::Declares),
            step(Action::Into),
            Symbol::Named(Named::Members(inside)),
        ],
    )
}

/// The same where the type is that of memories.
fn put_memory<'a>(stack: &mut Vec<Symbol<'a>>, inside: Inside<'a>) -> Result<(), NoMemory>
    ensures { OnOk result (todo stack.new.items ≡ memory_choice (inside_view inside.entry) ++ todo stack.old.items) }
{
    push_all(
        stack,
        &[
            sign(Sign::Less),
            word(Word::DFEVar),
            sign(Sign::Greater),
            step(Action::End),
            sub(Rule::Dims),
            step(Action::Into),
            mark(TokenClass::Name, Effect::Text),
            sub(Rule::Declares),
            step(Action::Into),
            Symbol::Named(Named::Members(inside)),
        ],
    )
}

/// A member behind its first word, a name.
pub fn push_after<'a>(
    stack: &mut Vec<Symbol<'a>>,
    inside: Inside<'a>,
    first: FirstName,
    next: Option<Placed<'a>>,
) -> Result<bool, NoMemory>
    ensures { IfOk result (λ taken. IsExpanded (views.Call
        (views.After (inside_view inside.entry) first.own first.memory)) (option_map placed_view next.entry)
        (todo stack.old.items) (todo stack.new.items) taken) }
{
    let kind = next_kind(next);
    if admits_if(first.own, &[TokenClass::Sign(Sign::Open)], kind) {
        put_ctor(stack, inside)?;
        return Ok(true);
    }
    if admits_if(first.memory, &[TokenClass::Sign(Sign::Less)], kind) {
        put_memory(stack, inside)?;
        return Ok(true);
    }
    put_type(stack, inside)?;
    Ok(true)
}
