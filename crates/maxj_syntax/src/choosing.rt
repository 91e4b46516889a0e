// The choice of a rule that is taken at the next token.
ghost use Rattle.std.specs.Prelude.{◌≡◌, ◌<◌, ◌&&◌, true, false, Some, None, Option, map, MatchOption};
ghost use Rattle.std.specs.List.{list_any};
ghost use Rattle.maxj_syntax.specs.Symbols.{fixed_view};
ghost use Rattle.maxj_syntax.specs.TokenClasses.{class_has};
ghost use Rattle.maxj_syntax.specs.Table.{choices, guards};
ghost use Rattle.maxj_syntax.specs.Choosing.{admits, pick};

use crate::choices::choices_of;
use crate::class::class_has;
use crate::guards::guards_of;
use crate::kind::Kind;
use crate::symbol::{Fixed, Rule, TokenClass};

/// Whether one of the classes has tokens of the kind.
fn any_has(classes: &[TokenClass], kind: Kind) -> bool
    ensures { result ≡ list_any (λ d. class_has d kind) classes.now }
{
    classes.iter().any(|class| class_has(*class, kind))
}

/// Whether a choice is taken at a token of the kind, or at the end of the tokens.
pub fn admits(guard: &[TokenClass], next: Option<Kind>) -> bool
    ensures { result ≡ admits guard.now next }
{
    if guard.is_empty() {
        return true;
    }
    match next {
        Some(kind) => any_has(guard, kind),
        None => false,
    }
}

/// The same, where a choice is one at all.
pub fn admits_if(choice: bool, guard: &[TokenClass], next: Option<Kind>) -> bool
    ensures { result ≡ (choice && admits guard.now next) }
{
    choice && admits(guard, next)
}

/// The first of the choices that is taken there.
fn picked(
    guards: &[&'static [TokenClass]],
    choices: &[&'static [Fixed]],
    next: Option<Kind>,
) -> Option<&'static [Fixed]>
    ensures { let taken = pick (map (λ g. g.now) guards.now) (map (λ c. map fixed_view c.now) choices.now) next in
        MatchOption result (taken ≡ None) (λ c. taken ≡ Some (map fixed_view c.now)) }
{
    let (guard, guards) = guards.split_first()?;
    let (choice, choices) = choices.split_first()?;
    if admits(guard, next) {
        Some(*choice)
    } else {
        picked(guards, choices, next)
    }
}

/// The choice that a rule takes at a token of the kind, or at the end of the tokens.
pub fn choice(rule: Rule, next: Option<Kind>) -> Option<&'static [Fixed]>
    ensures { let taken = pick (guards rule) (choices rule) next in
        MatchOption result (taken ≡ None) (λ c. taken ≡ Some (map fixed_view c.now)) }
{
    picked(guards_of(rule), choices_of(rule), next)
}
