// The tokens that are still to be read, and what stands at their front.
ghost use Rattle.std.specs.Prelude.{◌≡◌, ◌<◌, ◌≤◌, ◌+◌, ◌∷◌, [], map, length, drop, slice_get, IfOk, MatchResult, MatchOption, is_some};
ghost use Rattle.std.specs.Option.{option_map};
ghost use Rattle.std.specs.Str.{bytes_eq};
ghost use Rattle.rtl_ir.specs.Names as names;
ghost use Rattle.rtl_text.specs.Tokens as tokens;
ghost use Rattle.verilog_syntax.specs.Parsing.{Reads, ReadsAll, NameOf, NumberTo, LiteralOf, OperatorOf};
ghost use Rattle.verilog_syntax.specs.Pieces.{piece_part, piece_token, begins_with, same_token};
ghost use Rattle.verilog_syntax.specs.Pieces.{name_at, number_at, operator_at, BeginsLiteral};
ghost use Rattle.verilog_syntax.specs.Pieces.{BeginsNoLiteral};
ghost use Rattle.verilog_syntax.specs.Scanning.{token_view};
ghost use Rattle.verilog_syntax.specs.Trees.{left, word_view, FailsAt, FailsAllAt};

use crate::keyword::Piece;
use crate::mark::Mark;
use crate::number::{decimal, literal};
use crate::token::{Placed, Token};
use mx_base::NoMemory;
use mx_bits::Word;
use rtl_ir::Sign;

/// The tokens of a text that are still to be read.
pub struct Parser<'t, 'a> {
    pub rest: &'t [Placed<'a>],
}

/// Why no tree is read. The token that fits nothing is the next one of the parser.
#[derive(Clone, Copy, Debug, PartialEq, Eq)]
pub enum Fault {
    NoMemory,
    Syntax,
}

impl From<NoMemory> for Fault {
    ghost from_gives = { λ _ e. e ≡ NoMemory };

    ghost use Rattle.verilog_syntax.specs.declared.cursor.Fault.TheVariants.{NoMemory};

    fn from(_: NoMemory) -> Self {
        Fault::NoMemory
    }
}

fn is(word: &[u8], wanted: &[u8]) -> bool
    ensures { result ≡ bytes_eq word.now wanted.now }
{
    word == wanted
}

/// Whether a word is reserved: none of the grammar's words but `clk` is a name.
fn is_reserved(word: &[u8]) -> bool
    ensures { result ≡ names.is_reserved word.now }
{
    is(word, b"module")
        || is(word, b"endmodule")
        || is(word, b"input")
        || is(word, b"output")
        || is(word, b"wire")
        || is(word, b"reg")
        || is(word, b"assign")
        || is(word, b"always")
        || is(word, b"posedge")
        || is(word, b"begin")
        || is(word, b"end")
        || is(word, b"if")
}

fn is_piece(token: Token<'_>, piece: Piece) -> bool
    ensures { result ≡ same_token (token_view token.entry) (piece_token piece) }
{
    match (token, piece) {
        (Token::Word(word), Piece::Word(keyword)) => word == keyword.bytes(),
        (Token::Word(word), Piece::Clock) => is(word, b"clk"),
        (Token::Number(digits), Piece::Zero) => decimal(digits, 0).is_some(),
        (Token::Sign(mark), Piece::Sign(wanted)) => mark.bytes() == wanted.bytes(),
        _ => false,
    }
}

impl<'t, 'a> Parser<'t, 'a> {
    /// The next token.
    pub fn peek(&self) -> Option<Token<'a>>
        ensures { option_map token_view result ≡ slice_get (left self.now) 0 }
    {
        match self.rest.first() {
            Some(next) => Some(next.token),
            None => None,
        }
    }

    /// The name that is the next token.
    fn next_name(&self) -> Option<&'a [u8]>
        ensures { option_map (λ w. w.now) result ≡ name_at (left self.now) }
    {
        match self.peek() {
            Some(Token::Word(word)) => if is_reserved(word) { None } else { Some(word) },
            _ => None,
        }
    }

    /// Whether the next token is a name.
    pub fn starts_name(&self) -> bool
        ensures { result ≡ is_some (name_at (left self.now)) }
    {
        self.next_name().is_some()
    }

    /// Whether the next token is an operator of two operands.
    pub fn begins_operator(&self) -> bool
        ensures { result ≡ is_some (operator_at (left self.now)) }
    {
        self.next_operator().is_some()
    }

    /// The operator of two operands that is the next token.
    fn next_operator(&self) -> Option<Sign>
        ensures { result ≡ operator_at (left self.now) }
    {
        match self.peek() {
            Some(Token::Sign(Mark::Operator(sign))) => Some(sign),
            _ => None,
        }
    }

    /// The number that is the next token, where it is at most `limit`.
    fn next_number(&self, limit: u32) -> Option<u32>
        ensures { result ≡ number_at limit (left self.now) }
    {
        match self.peek() {
            Some(Token::Number(digits)) => decimal(digits, limit),
            _ => None,
        }
    }

    /// The literal that is the next token.
    fn next_literal(&self) -> Option<Word>
        ensures { MatchOption result (BeginsNoLiteral (left self.now)) (λ w. BeginsLiteral (word_view w) (left self.now)) }
    {
        match self.peek() {
            Some(Token::Literal(bytes)) => literal(bytes),
            _ => None,
        }
    }

    /// Goes on behind the next token.
    fn step(&mut self)
        requires { 0 < length (left self.old) }
        ensures { left self.new ≡ drop 1 (left self.old) }
    {
        self.rest = &self.rest[1..];
    }

    /// Whether the next token is this one.
    pub fn begins(&self, piece: Piece) -> bool
        ensures { result ≡ begins_with (piece_token piece) (left self.now) }
    {
        match self.peek() {
            Some(next) => is_piece(next, piece),
            None => false,
        }
    }

    /// Reads these tokens.
    pub fn expect(&mut self, pieces: &[Piece]) -> Result<(), Fault>
        ensures exact { MatchResult result (λ _. ReadsAll (map piece_part pieces.now)
            (left self.old) (left self.new)) (λ f. FailsAllAt (map piece_part pieces.now) f
            (left self.old) (left self.new)) }
        ensures fewer { IfOk result (λ _. length (left self.new) + length pieces.now ≡ length (left self.old)) }
    {
        for piece in pieces {
            if !self.begins(*piece) {
                return Err(Fault::Syntax);
            }
            self.step();
        }
        Ok(())
    }

    /// Reads a name.
    pub fn name(&mut self) -> Result<&'a [u8], Fault>
        ensures exact { MatchResult result (λ name. Reads NameOf (left self.old)
            (left self.new) name.now) (λ f. FailsAt NameOf f (left self.old) (left self.new)) }
        ensures fewer { IfOk result (λ _. length (left self.new) < length (left self.old)) }
    {
        match self.next_name() {
            Some(name) => {
                self.step();
                Ok(name)
            }
            None => Err(Fault::Syntax),
        }
    }

    /// Reads a number that is at most `limit`.
    pub fn number(&mut self, limit: u32) -> Result<u32, Fault>
        ensures exact { MatchResult result (λ n. Reads (NumberTo limit) (left self.old)
            (left self.new) n) (λ f. FailsAt (NumberTo limit) f (left self.old) (left self.new)) }
        ensures fewer { IfOk result (λ _. length (left self.new) < length (left self.old)) }
        ensures within { IfOk result (λ n. n ≤ limit) }
    {
        match self.next_number(limit) {
            Some(value) => {
                self.step();
                Ok(value)
            }
            None => Err(Fault::Syntax),
        }
    }

    /// Reads a literal.
    pub fn literal(&mut self) -> Result<Word, Fault>
        ensures exact { MatchResult result (λ w. Reads LiteralOf (left self.old) (left self.new)
            (word_view w)) (λ f. FailsAt LiteralOf f (left self.old) (left self.new)) }
        ensures fewer { IfOk result (λ _. length (left self.new) < length (left self.old)) }
    {
        match self.next_literal() {
            Some(word) => {
                self.step();
                Ok(word)
            }
            None => Err(Fault::Syntax),
        }
    }

    /// Reads an operator of two operands.
    pub fn operator(&mut self) -> Result<Sign, Fault>
        ensures exact { MatchResult result (λ s. Reads OperatorOf (left self.old)
            (left self.new) s) (λ f. FailsAt OperatorOf f (left self.old) (left self.new)) }
        ensures fewer { IfOk result (λ _. length (left self.new) < length (left self.old)) }
    {
        match self.next_operator() {
            Some(sign) => {
                self.step();
                Ok(sign)
            }
            None => Err(Fault::Syntax),
        }
    }
}
