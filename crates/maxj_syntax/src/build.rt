// Trees that are being built.
ghost use Rattle.std.specs.Prelude.{◌≡◌, ◌<◌, ◌≤◌, ◌+◌, ◌-◌, ◌∷◌, [], length, drop, take, slice_get, Some, List as Items, ◌^◌, IfOk};
ghost use Rattle.std.specs.List.{All};
ghost use Rattle.maxj_tokens.specs.Scanning.{PlacedToken, span_of, from_of, to_of};
ghost use Rattle.maxj_tokens.specs.Reading.{token_view, placed_view};
ghost use Rattle.maxj_syntax.specs.TokenClasses.{leaf_kind};
ghost use Rattle.maxj_syntax.specs.Plain.{StaysInRange};
ghost use Rattle.maxj_syntax.specs.Building.{Acts, Takes, Adds, Wraps, Does, Texts, IsBottom, IsLeaf, IsMemoryLocal, EndsIn};

use crate::draft::{Draft, NodeWord, word_of, written};
use crate::nodes::Nodes;
use crate::symbol::{Action, ClassKind, Effect};
use crate::tree::{Class, NodeKind};
use maxj_tokens::{Placed, Token, Tokens};
use mx_base::{List, NoMemory, Span, Text};
use std::alloc::Global;

/// A node that is being built: from the token with the number `start` on.
#[derive(Drop)]
pub struct Unfinished {
    pub node: Draft,
    pub start: usize,
}

/// The nodes that are whole, those that are being built, the last one first to end, and the classes that are whole.
#[derive(Drop)]
pub struct Builder {
    pub nodes: Nodes,
    pub unfinished: Vec<Unfinished>,
    pub classes: List<Class>,
}

const NO_SPAN: Span = Span { from: 0, to: 0 };

fn leaf_kind(token: &Token<'_>) -> NodeKind
    ensures { result ≡ leaf_kind (token_view token.now) }
{
    match token {
        Token::Whole(_) => NodeKind::Whole,
        Token::Decimal(_) => NodeKind::Decimal,
        Token::Str(_) => NodeKind::Str,
        _ => NodeKind::Name,
    }
}

/// The place behind a token.
fn end_of(token: &Placed<'_>) -> u32
    requires { EndsIn (placed_view token.now) }
    ensures { result ≡ to_of (placed_view token.now ∷ []) }
{
    (token.at as usize + written(&token.token).len()) as u32
}

/// The span of the tokens from the one with the number `start` up to the one with the number `end`.
fn span_between(tokens: &Tokens<'_>, start: usize, end: usize) -> Span
    requires ends { All EndsIn tokens.now }
    requires within { end ≤ length tokens.now }
    ensures { result ≡ span_of (take (end - start) (drop start tokens.now)) }
{
    if start < end {
        let first = tokens.at(start);
        let last = tokens.at(end - 1);
        Span {
            from: first.at,
            to: end_of(&last),
        }
    } else {
        NO_SPAN
    }
}

/// A node without children.
fn leaf(alloc: Global, kind: NodeKind, word: NodeWord, span: Span) -> Draft
    ensures { IsLeaf result kind word span }
{
    Draft {
        kind,
        word,
        span,
        children: List::new(alloc),
    }
}

/// A builder that has begun nothing: one node stands below all others. It has room for as many
/// nodes as there are tokens.
pub fn bottom(alloc: Global, end: usize) -> Result<Builder, NoMemory>
    ensures { IfOk result (λ b. IsBottom end b) }
{
    let node = leaf(alloc, NodeKind::Empty, NodeWord::Nothing, NO_SPAN);
    let mut unfinished = Vec::new(alloc);
    unfinished.push(Unfinished { node, start: end })?;
    Ok(Builder {
        nodes: Nodes::with_capacity(alloc, end)?,
        unfinished,
        classes: List::new(alloc),
    })
}

fn begin(
    alloc: Global,
    builder: &mut Builder,
    kind: NodeKind,
    word: NodeWord,
    span: Span,
    start: usize,
) -> Result<(), NoMemory>
    ensures trees { IfOk result (λ _. Adds kind word span start builder.old builder.new) }
    ensures numbers { IfOk result (λ _. StaysInRange builder.old builder.new) }
{
    let node = leaf(alloc, kind, word, span);
    builder.unfinished.push(Unfinished { node, start })?;
    Ok(())
}

/// The node on top becomes the first child of a new one.
fn wrap(
    alloc: Global,
    builder: &mut Builder,
    kind: NodeKind,
    word: NodeWord,
) -> Result<(), NoMemory>
    ensures trees { IfOk result (λ _. Wraps kind word builder.old builder.new) }
    ensures numbers { IfOk result (λ _. StaysInRange builder.old builder.new) }
{
    if let Some(top) = builder.unfinished.pop() {
        let child = builder.nodes.push(top.node)?;
        let mut node = leaf(alloc, kind, word, NO_SPAN);
        node.children.push(child)?;
        builder.unfinished.push(Unfinished {
            node,
            start: top.start,
        })?;
    }
    Ok(())
}

/// The node on top becomes the last child of the one below.
fn into_below(builder: &mut Builder) -> Result<(), NoMemory>
    ensures trees { IfOk result (λ _. Does Action.Into builder.old builder.new) }
    ensures numbers { IfOk result (λ _. StaysInRange builder.old builder.new) }
{
    if let Some(top) = builder.unfinished.pop() {
        if let Some(mut below) = builder.unfinished.pop() {
            let child = builder.nodes.push(top.node)?;
            below.node.children.push(child)?;
            builder.unfinished.push(below)?;
        } else {
            builder.unfinished.push(top)?;
        }
    }
    Ok(())
}

fn inner(builder: &mut Builder) -> Result<(), NoMemory>
    ensures trees { IfOk result (λ _. Does Action.Inner builder.old builder.new) }
    ensures numbers { IfOk result (λ _. StaysInRange builder.old builder.new) }
{
    if let Some(top) = builder.unfinished.pop() {
        if let Some(below) = builder.unfinished.pop() {
            builder.unfinished.push(Unfinished {
                node: top.node,
                start: below.start,
            })?;
        } else {
            builder.unfinished.push(top)?;
        }
    }
    Ok(())
}

fn named(builder: &mut Builder) -> Result<(), NoMemory>
    ensures trees { IfOk result (λ _. Does Action.Named builder.old builder.new) }
    ensures numbers { IfOk result (λ _. StaysInRange builder.old builder.new) }
{
    if let Some(top) = builder.unfinished.pop() {
        if let Some(mut below) = builder.unfinished.pop() {
            below.node.word = top.node.word;
            builder.unfinished.push(below)?;
        } else {
            builder.unfinished.push(top)?;
        }
    }
    Ok(())
}

fn end(builder: &mut Builder, tokens: &Tokens<'_>, at: usize) -> Result<(), NoMemory>
    requires ends { All EndsIn tokens.now }
    requires within { at ≤ length tokens.now }
    ensures trees { IfOk result (λ _. Acts tokens.now Action.End (drop at tokens.now) builder.old builder.new) }
    ensures numbers { IfOk result (λ _. StaysInRange builder.old builder.new) }
{
    if let Some(mut top) = builder.unfinished.pop() {
        top.node.span = span_between(tokens, top.start, at);
        builder.unfinished.push(top)?;
    }
    Ok(())
}

fn turn(builder: &mut Builder, kind: NodeKind) -> Result<(), NoMemory>
    ensures trees { IfOk result (λ _. Does (Action.Turn kind) builder.old builder.new) }
    ensures numbers { IfOk result (λ _. StaysInRange builder.old builder.new) }
{
    if let Some(mut top) = builder.unfinished.pop() {
        top.node.kind = kind;
        builder.unfinished.push(top)?;
    }
    Ok(())
}

fn text(builder: &mut Builder, word: NodeWord) -> Result<(), NoMemory>
    ensures trees { IfOk result (λ _. Texts word builder.old builder.new) }
    ensures numbers { IfOk result (λ _. StaysInRange builder.old builder.new) }
{
    if let Some(mut top) = builder.unfinished.pop() {
        top.node.word = word;
        builder.unfinished.push(top)?;
    }
    Ok(())
}

/// The place of the token with the number `at`, or 0 at the end.
fn place_at(tokens: &Tokens<'_>, at: usize) -> u32
    ensures { result ≡ from_of (drop at tokens.now) }
{
    match tokens.get(at) {
        Some(token) => token.at,
        None => 0,
    }
}

/// The node of what is absent.
fn hole(
    alloc: Global,
    builder: &mut Builder,
    tokens: &Tokens<'_>,
    at: usize,
) -> Result<(), NoMemory>
    requires { at ≤ length tokens.now }
    ensures trees { IfOk result (λ _. Acts tokens.now Action.Hole (drop at tokens.now) builder.old builder.new) }
    ensures numbers { IfOk result (λ _. StaysInRange builder.old builder.new) }
{
    let from = place_at(tokens, at);
    let span = Span { from, to: from };
    begin(alloc, builder, NodeKind::Empty, NodeWord::Nothing, span, at)?;
    Ok(())
}

/// The node on top becomes the type of memories, which ends here.
fn memory(
    alloc: Global,
    builder: &mut Builder,
    tokens: &Tokens<'_>,
    at: usize,
) -> Result<(), NoMemory>
    requires ends { All EndsIn tokens.now }
    requires within { at ≤ length tokens.now }
    ensures trees { IfOk result (λ _. Acts tokens.now Action.Memory (drop at tokens.now) builder.old builder.new) }
    ensures numbers { IfOk result (λ _. StaysInRange builder.old builder.new) }
{
    if let Some(mut top) = builder.unfinished.pop() {
        let span = span_between(tokens, top.start, at);
        top.node = leaf(alloc, NodeKind::Plain, NodeWord::Memory, span);
        builder.unfinished.push(top)?;
    }
    Ok(())
}

/// A local variable of the type of memories. The type's node, which has the span, is added to the
/// nodes.
fn memory_local(
    alloc: Global,
    nodes: &mut Nodes,
    word: NodeWord,
    span: Span,
) -> Result<Draft, NoMemory>
    ensures { IfOk result (λ node. IsMemoryLocal nodes.old nodes.new word span node) }
{
    let memory = leaf(alloc, NodeKind::Plain, NodeWord::Memory, span);
    let child = nodes.push(memory)?;
    let mut node = leaf(alloc, NodeKind::Local, word, NO_SPAN);
    node.children.push(child)?;
    Ok(node)
}

/// The node on top, a name, becomes a local variable of the type of memories, which stands where the node below does.
fn declare(
    alloc: Global,
    builder: &mut Builder,
    tokens: &Tokens<'_>,
    at: usize,
) -> Result<(), NoMemory>
    requires ends { All EndsIn tokens.now }
    requires within { at ≤ length tokens.now }
    ensures trees { IfOk result (λ _. Acts tokens.now Action.Declare (drop at tokens.now) builder.old builder.new) }
    ensures numbers { IfOk result (λ _. StaysInRange builder.old builder.new) }
{
    if let Some(top) = builder.unfinished.pop() {
        if let Some(mut below) = builder.unfinished.pop() {
            let to = top.start.min(tokens.len());
            let span = span_between(tokens, below.start, to);
            let node = memory_local(alloc, &mut builder.nodes, top.node.word, span)?;
            below.node = node;
            builder.unfinished.push(below)?;
        } else {
            builder.unfinished.push(top)?;
        }
    }
    Ok(())
}

/// The node on top is a whole class.
fn keep(
    alloc: Global,
    builder: &mut Builder,
    kind: ClassKind,
    tokens: &Tokens<'_>,
) -> Result<(), NoMemory>
    ensures trees { IfOk result (λ _. (xs : Items PlacedToken) → Acts tokens.now (Action.Keep kind) xs builder.old builder.new) }
    ensures numbers { IfOk result (λ _. StaysInRange builder.old builder.new) }
{
    if let Some(top) = builder.unfinished.pop() {
        if let Some(below) = builder.unfinished.pop() {
            let name = word_of(tokens, top.node.word).to_vec(alloc)?;
            let node = builder.nodes.push(top.node)?;
            builder.classes.push(Class {
                name: Text::from_vec(name),
                manager: kind.is_manager(),
                node,
            })?;
            builder.unfinished.push(below)?;
        } else {
            builder.unfinished.push(top)?;
        }
    }
    Ok(())
}

/// A step between tokens, before the token with the number `at`.
pub fn act(
    alloc: Global,
    builder: &mut Builder,
    action: Action,
    tokens: &Tokens<'_>,
    at: usize,
) -> Result<(), NoMemory>
    requires ends { All EndsIn tokens.now }
    requires within { at ≤ length tokens.now }
    ensures trees { IfOk result (λ _. Acts tokens.now action (drop at tokens.now) builder.old builder.new) }
    ensures numbers { IfOk result (λ _. StaysInRange builder.old builder.new) }
{
    match action {
        Action::Begin(kind) => begin(alloc, builder, kind, NodeWord::Nothing, NO_SPAN, at),
        Action::Wrap(kind) => wrap(alloc, builder, kind, NodeWord::Nothing),
        Action::Turn(kind) => turn(builder, kind),
        Action::Into => into_below(builder),
        Action::End => end(builder, tokens, at),
        Action::Inner => inner(builder),
        Action::Named => named(builder),
        Action::Hole => hole(alloc, builder, tokens, at),
        Action::Memory => memory(alloc, builder, tokens, at),
        Action::Declare => declare(alloc, builder, tokens, at),
        Action::Keep(kind) => keep(alloc, builder, kind, tokens),
    }
}

/// The token with the number `at`.
pub fn read(
    alloc: Global,
    builder: &mut Builder,
    effect: Effect,
    tokens: &Tokens<'_>,
    at: usize,
) -> Result<(), NoMemory>
    requires ends { All EndsIn tokens.now }
    requires few { length tokens.now < 2 ^ 32 }
    requires within { at < length tokens.now }
    ensures trees { IfOk result (λ _. (t : PlacedToken) → slice_get tokens.now at ≡ Some t
        → Takes tokens.now effect t.token (drop at tokens.now) (drop (at + 1) tokens.now) builder.old builder.new) }
    ensures numbers { IfOk result (λ _. StaysInRange builder.old builder.new) }
{
    let word = NodeWord::Token(at as u32);
    let span = span_between(tokens, at, at + 1);
    match effect {
        Effect::Skip => Ok(()),
        Effect::Leaf => begin(
            alloc,
            builder,
            leaf_kind(&tokens.at(at).token),
            word,
            span,
            at,
        ),
        Effect::Push(kind) => begin(alloc, builder, kind, word, span, at),
        Effect::Over(kind) => wrap(alloc, builder, kind, word),
        Effect::Text => text(builder, word),
    }
}
