// The tree of a source.
ghost use Rattle.std.specs.Prelude.{◌≡◌, ◌↔◌, Some, None, slice_get, IsTrue, IfSome, IfNone};
ghost use Rattle.maxj_syntax.specs.Cells.{cells_of};
ghost use Rattle.maxj_syntax.specs.Views.{node_view};

use crate::draft::word_of;
use crate::nodes::Nodes;
use maxj_tokens::Tokens;
use mx_base::{List, Span, Text};
use std::marker::Model;

/// What a node of the tree is.
#[derive(Clone, Copy, PartialEq, Eq)]
pub enum NodeKind {
    /// A class: its name; its members.
    Class,
    /// A field: its name; the type, and the initial value where there is one.
    Field,
    /// A local variable: its name; the type, and the initial value where there is one.
    Local,
    /// A method: its name; the type of the result, the parameters, and the block.
    Method,
    /// A constructor: its name; the parameters, and the block without the `super` statement.
    Ctor,
    /// A parameter: its name; the type.
    Param,
    /// A type that is no array: its first token, or `void`.
    Plain,
    /// An array type: the type of the elements.
    ArrayOf,
    /// A block: its statements.
    Block,
    /// An assignment: `=`, `+=`, `-=`, `*=`, `++` or `--`; the place, and the expression where there is one.
    Set,
    /// A connection: the left side, and the right side.
    Connect,
    /// A call that is a statement.
    Run,
    /// A return: the expression where there is one.
    Return,
    /// An if: each condition and its body in turn, and last the `else` body where there is one.
    If,
    /// A while: the condition, and the body.
    While,
    /// A for: the first part, the condition, the step, and the body.
    For,
    /// The statement `;`, or an absent part of a for.
    Empty,
    /// An initial value in braces: its elements.
    Braces,
    /// A choice by a condition: the condition, and the two branches.
    Cond,
    /// An operator between two operands: its sign; the left operand, and the right one.
    Binary,
    /// A prefix: its sign; the operand.
    Prefix,
    /// A name behind a dot: the name; the base.
    Dot,
    /// A call behind a dot: the name; the base, and the arguments.
    DotCall,
    /// A call: the name; the arguments.
    Call,
    /// An element of an array: the array, and the index.
    Index,
    /// A new object: the name; the arguments.
    New,
    /// A new array: the type of the elements, and the sizes.
    NewArray,
    /// An integer, as it is written.
    Whole,
    /// A decimal, as it is written.
    Decimal,
    /// A string, as it is written.
    Str,
    /// A name, `this`, `true` or `false`.
    Name,
}

/// The number of a node in its tree, from 0.
pub type NodeId = u32;

/// A node of a tree, lent by it.
#[derive(Clone, Copy)]
pub struct Node<'a> {
    pub kind: NodeKind,
    /// Empty where the kind has no word.
    pub word: &'a [u8],
    /// The bytes that it stands for.
    pub span: Span,
    /// The numbers of its children, each smaller than its own.
    pub children: &'a [NodeId],
}

impl Node<'_> {
    /// Whether the node's word is this one.
    pub fn is(&self, word: &[u8]) -> bool
        ensures { IsTrue result ↔ (self.now.word.now ≡ word.now) }
    {
        self.word == word
    }
}

/// The nodes of a source's tree, which lend its bytes. A contract sees the list of them.
#[derive(Drop)]
pub struct SyntaxTree<'a> {
    tokens: Tokens<'a>,
    nodes: Nodes,
}

impl<'a> Model for SyntaxTree<'a> {
    ghost use Rattle.std.specs.Prelude.{List as Items};
    ghost use Rattle.maxj_syntax.specs.Cells.{Cell, cells_of};

    ghost Value = { Items Cell };

    ghost view = { λ t. cells_of t.tokens t.nodes };
}

impl<'a> SyntaxTree<'a> {
    /// The nodes, whose words are those of the tokens.
    pub fn new(tokens: Tokens<'a>, nodes: Nodes) -> Self
        ensures { result ≡ cells_of tokens.entry nodes }
    {
        SyntaxTree { tokens, nodes }
    }

    /// The node with this number, or `None` where the tree has no such node.
    pub fn node(&self, id: NodeId) -> Option<Node<'_>>
        ensures some { IfSome result (λ node. slice_get self.now id ≡ Some (node_view node)) }
        ensures none { IfNone result (slice_get self.now id ≡ None) }
    {
        let node = self.nodes.get(id)?;
        Some(Node {
            kind: node.kind,
            word: word_of(&self.tokens, node.word),
            span: node.span,
            children: node.children,
        })
    }
}

/// A class of a source.
#[derive(Drop)]
pub struct Class {
    pub name: Text,
    /// Whether it is a manager, and no kernel.
    pub manager: bool,
    pub node: NodeId,
}

/// A whole source: its classes in order, and the nodes of their trees.
#[derive(Drop)]
pub struct Program<'a> {
    pub classes: List<Class>,
    pub tree: SyntaxTree<'a>,
}
