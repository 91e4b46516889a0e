// The kinds of tokens that the parser tells apart.
ghost use Rattle.std.specs.Prelude.{◌≡◌};
ghost use Rattle.maxj_tokens.specs.Reading.{token_view};
ghost use Rattle.maxj_syntax.specs.Kinds.{word_bytes, words_of_length, first_word, known_word, word_kind, kind_of};
ghost use Rattle.maxj_syntax.specs.TokenClasses.{number};

use maxj_tokens::{Sign, Token, is_word};

/// A word that the grammar knows.
#[derive(Clone, Copy, Debug, PartialEq, Eq)]
pub enum Word {
    Package,
    Import,
    Static,
    Public,
    Private,
    Protected,
    Final,
    Class,
    Extends,
    Void,
    Return,
    If,
    Else,
    While,
    For,
    New,
    This,
    True,
    False,
    Int,
    Boolean,
    Super,
    // The words from here on are names too.
    Kernel,
    CustomManager,
    Memory,
    DFEVar,
    KernelParameters,
    EngineParameters,
}

/// The kind of a token.
#[derive(Clone, Copy, PartialEq, Eq)]
pub enum Kind {
    Sign(Sign),
    Word(Word),
    /// A name that is no word of the grammar.
    Name,
    Whole,
    Decimal,
    Str,
    /// What the scanner never makes.
    Other,
}

impl Kind {
    /// The number of the kind, below 73.
    pub fn number(self) -> u8
        ensures { result ≡ number self }
    {
        match self {
            Kind::Sign(sign) => sign as u8,
            Kind::Word(word) => 40 + word as u8,
            Kind::Name => 68,
            Kind::Whole => 69,
            Kind::Decimal => 70,
            Kind::Str => 71,
            Kind::Other => 72,
        }
    }
}

impl Word {
    /// The bytes of the word.
    pub fn bytes(self) -> &'static [u8]
        ensures { result.now ≡ word_bytes self }
    {
        match self {
            Word::Package => b"package",
            Word::Import => b"import",
            Word::Static => b"static",
            Word::Public => b"public",
            Word::Private => b"private",
            Word::Protected => b"protected",
            Word::Final => b"final",
            Word::Class => b"class",
            Word::Extends => b"extends",
            Word::Void => b"void",
            Word::Return => b"return",
            Word::If => b"if",
            Word::Else => b"else",
            Word::While => b"while",
            Word::For => b"for",
            Word::New => b"new",
            Word::This => b"this",
            Word::True => b"true",
            Word::False => b"false",
            Word::Int => b"int",
            Word::Boolean => b"boolean",
            Word::Super => b"super",
            Word::Kernel => b"Kernel",
            Word::CustomManager => b"CustomManager",
            Word::Memory => b"Memory",
            Word::DFEVar => b"DFEVar",
            Word::KernelParameters => b"KernelParameters",
            Word::EngineParameters => b"EngineParameters",
        }
    }
}

/// The first of the words that these bytes are.
fn first_word(bytes: &[u8], words: &[Word]) -> Option<Word>
    ensures { result ≡ first_word bytes.now words.now }
{
    match words.split_first() {
        Some((word, rest)) => if bytes == word.bytes() {
            Some(*word)
        } else {
            first_word(bytes, rest)
        },
        None => None,
    }
}

/// The words of the grammar that have so many bytes.
fn words_of_length(length: usize) -> &'static [Word]
    ensures { result.now ≡ words_of_length length }
{
    match length {
        2 => &[Word::If],
        3 => &[Word::For, Word::New, Word::Int],
        4 => &[Word::Void, Word::Else, Word::This, Word::True],
        5 => &[
            Word::Final,
            Word::Class,
            Word::While,
            Word::False,
            Word::Super,
        ],
        6 => &[
            Word::Import,
            Word::Static,
            Word::Public,
            Word::Return,
            Word::Kernel,
            Word::Memory,
            Word::DFEVar,
        ],
        7 => &[Word::Package, Word::Private, Word::Extends, Word::Boolean],
        9 => &[Word::Protected],
        13 => &[Word::CustomManager],
        16 => &[Word::KernelParameters, Word::EngineParameters],
        _ => &[],
    }
}

/// The word of the grammar that these bytes are.
#[tactic(auto, using(crate::proofs::KindLemmas::known_by_length))]
fn known_word(bytes: &[u8]) -> Option<Word>
    ensures { result ≡ known_word bytes.now }
{
    first_word(bytes, words_of_length(bytes.len()))
}

fn word_kind(bytes: &[u8]) -> Kind
    ensures { result ≡ word_kind bytes.now }
{
    if let Some(word) = known_word(bytes) {
        return Kind::Word(word);
    }
    if is_word(bytes) {
        Kind::Name
    } else {
        Kind::Other
    }
}

/// The kind of a token.
pub fn kind_of(token: &Token<'_>) -> Kind
    ensures { result ≡ kind_of (token_view token.now) }
{
    match *token {
        Token::Word(bytes) => word_kind(bytes),
        Token::Whole(_) => Kind::Whole,
        Token::Decimal(_) => Kind::Decimal,
        Token::Str(_) => Kind::Str,
        Token::Sign(sign) => Kind::Sign(sign),
    }
}
