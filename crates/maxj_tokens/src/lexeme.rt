// Tokens without their bytes.
ghost use Rattle.std.specs.Prelude.{◌≡◌};
ghost use Rattle.maxj_tokens.specs.Tokens.{written};
ghost use Rattle.maxj_tokens.specs.Reading.{token_view};
ghost use Rattle.maxj_tokens.specs.Lexemes.{kind_view};

use crate::sign::Sign;
use crate::token::Token;

/// What a lexeme is. The bytes of all but signs are those of the source.
#[derive(Clone, Copy)]
pub enum LexemeKind {
    Word,
    Whole,
    Decimal,
    Str,
    Sign(Sign),
}

/// A token, by its place in the source: 12 bytes.
#[derive(Clone, Copy)]
pub struct Lexeme {
    pub kind: LexemeKind,
    /// The number of bytes of the source before it.
    pub at: u32,
    /// The number of its bytes.
    pub length: u32,
}

/// What a token is, without its bytes.
pub fn kind_of(token: &Token<'_>) -> LexemeKind
    ensures { kind_view result (written (token_view token.now)) ≡ token_view token.now }
{
    match token {
        Token::Word(_) => LexemeKind::Word,
        Token::Whole(_) => LexemeKind::Whole,
        Token::Decimal(_) => LexemeKind::Decimal,
        Token::Str(_) => LexemeKind::Str,
        Token::Sign(sign) => LexemeKind::Sign(*sign),
    }
}

impl LexemeKind {
    /// The token of this kind that has these bytes.
    pub fn token(self, bytes: &[u8]) -> Token<'_>
        ensures { token_view result ≡ kind_view self bytes.now }
    {
        match self {
            LexemeKind::Word => Token::Word(bytes),
            LexemeKind::Whole => Token::Whole(bytes),
            LexemeKind::Decimal => Token::Decimal(bytes),
            LexemeKind::Str => Token::Str(bytes),
            LexemeKind::Sign(sign) => Token::Sign(sign),
        }
    }
}
