// The tokens of a source, in 12 bytes each.
ghost use Rattle.std.specs.Prelude.{◌≡◌, ◌<◌, ◌^◌, Some, length, map, take, drop, slice_get};
ghost use Rattle.std.specs.Option.{option_map};
ghost use Rattle.maxj_tokens.specs.Reading.{placed_view};
ghost use Rattle.maxj_tokens.specs.Lexemes.{placed_in};

use crate::lexeme::Lexeme;
use crate::token::Placed;
use mx_base::List;
use std::marker::Model;

/// The tokens of a source, each with its place. They lend the bytes of the source. A contract sees
/// the list of the tokens with their places.
#[derive(Drop)]
pub struct Tokens<'a> {
    text: &'a [u8],
    lexemes: List<Lexeme>,
}

impl<'a> Model for Tokens<'a> {
    ghost use Rattle.std.specs.Prelude.{◌<◌, ◌^◌, List as Items, length, map};
    ghost use Rattle.maxj_tokens.specs.Scanning.{PlacedToken};
    ghost use Rattle.maxj_tokens.specs.Lexemes.{placed_in};

    ghost Value = { Items PlacedToken };

    ghost view = { λ t. map (placed_in t.text.now) t.lexemes };

    ghost invariant = { λ t. length t.lexemes < 2 ^ 32 };
}

/// So many bytes of a text from a place on, or what there is of them.
fn bytes_at(text: &[u8], at: usize, length: usize) -> &[u8]
    ensures { result.now ≡ take length (drop at text.now) }
{
    let behind = &text[at.min(text.len())..];
    &behind[..length.min(behind.len())]
}

impl<'a> Tokens<'a> {
    /// The tokens at these places of a source.
    pub fn new(text: &'a [u8], lexemes: List<Lexeme>) -> Self
        requires { length lexemes < 2 ^ 32 }
        ensures { result ≡ map (placed_in text.now) lexemes }
    {
        Tokens { text, lexemes }
    }

    /// The number of tokens.
    pub fn len(&self) -> usize
        ensures number { result ≡ length self.now }
        ensures range { length self.now < 2 ^ 32 }
    {
        self.lexemes.len()
    }

    /// The token with this number, from 0.
    pub fn at(&self, number: usize) -> Placed<'a>
        requires { number < length self.now }
        ensures { slice_get self.now number ≡ Some (placed_view result) }
    {
        let lexeme = *self.lexemes.at(number);
        let bytes = bytes_at(self.text, lexeme.at as usize, lexeme.length as usize);
        Placed {
            token: lexeme.kind.token(bytes),
            at: lexeme.at,
        }
    }

    /// The token with this number, from 0, or `None` past the last one.
    pub fn get(&self, number: usize) -> Option<Placed<'a>>
        ensures { option_map placed_view result ≡ slice_get self.now number }
    {
        if number < self.len() {
            Some(self.at(number))
        } else {
            None
        }
    }
}
