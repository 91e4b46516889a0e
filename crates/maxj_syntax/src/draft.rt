// Nodes by the tokens that they are of.
ghost use Rattle.std.specs.Prelude.{◌≡◌};
ghost use Rattle.maxj_tokens.specs.Tokens.{written};
ghost use Rattle.maxj_tokens.specs.Reading.{token_view};
ghost use Rattle.maxj_syntax.specs.Cells.{word_in};

use crate::tree::{NodeId, NodeKind};
use maxj_tokens::{Token, Tokens};
use mx_base::{List, Span};

/// The word of a node.
#[derive(Clone, Copy)]
pub enum NodeWord {
    /// It has none.
    Nothing,
    /// What the token with this number is written as.
    Token(u32),
    /// `Memory`
    Memory,
}

/// A node with a list of its children of its own.
#[derive(Drop)]
pub struct Draft {
    pub kind: NodeKind,
    pub word: NodeWord,
    pub span: Span,
    pub children: List<NodeId>,
}

/// A node of 24 bytes. Its children stand in a list with those of all nodes, from where the
/// children of the node before it end up to `end`.
#[derive(Clone, Copy)]
pub struct Packed {
    pub kind: NodeKind,
    pub word: NodeWord,
    pub span: Span,
    pub end: u32,
}

/// The bytes of a token, as they are written.
pub fn written<'a>(token: &Token<'a>) -> &'a [u8]
    ensures { result.now ≡ written (token_view token.now) }
{
    match *token {
        Token::Word(bytes) => bytes,
        Token::Whole(bytes) => bytes,
        Token::Decimal(bytes) => bytes,
        Token::Str(bytes) => bytes,
        Token::Sign(sign) => sign.bytes(),
    }
}

/// The word of a node of these tokens.
pub fn word_of<'a>(tokens: &Tokens<'a>, word: NodeWord) -> &'a [u8]
    ensures { result.now ≡ word_in tokens.now word }
{
    match word {
        NodeWord::Nothing => b"",
        NodeWord::Token(number) => match tokens.get(number as usize) {
            Some(token) => written(&token.token),
            None => b"",
        },
        NodeWord::Memory => b"Memory",
    }
}
