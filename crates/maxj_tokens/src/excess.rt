// Tokens that stand too deep, or too far from the `;`, `{` or `}` before them.
ghost use Rattle.std.specs.Prelude.{◌≡◌, IfSome, IfNone};
ghost use Rattle.maxj_tokens.specs.Faults.{IsFirst, HasNone, IsExcess, is_opening, is_closing, is_break};
ghost use Rattle.maxj_tokens.specs.Reading.{placed_view};

use crate::sign::Sign;
use crate::token::{Placed, Token};
use crate::tokens::Tokens;

/// The most signs that are open.
const MOST_OPEN: usize = 200;

/// The most tokens between two neighbours among `;`, `{` and `}`.
const MOST_BETWEEN: usize = 2000;

/// `(`, `[` or `{`.
fn is_opening(token: &Placed<'_>) -> bool
    ensures { result ≡ is_opening (placed_view token.now) }
{
    matches!(
        token.token,
        Token::Sign(Sign::Open | Sign::OpenBracket | Sign::OpenBrace)
    )
}

/// `)`, `]` or `}`.
fn is_closing(token: &Placed<'_>) -> bool
    ensures { result ≡ is_closing (placed_view token.now) }
{
    matches!(
        token.token,
        Token::Sign(Sign::Close | Sign::CloseBracket | Sign::CloseBrace)
    )
}

/// `;`, `{` or `}`.
fn is_break(token: &Placed<'_>) -> bool
    ensures { result ≡ is_break (placed_view token.now) }
{
    matches!(
        token.token,
        Token::Sign(Sign::Semicolon | Sign::OpenBrace | Sign::CloseBrace)
    )
}

/// The place of the first token that stands too deep or too far: up to and with it over 200 more
/// signs open than close, or it is a `;`, `{` or `}` and over 2,000 tokens stand between it and
/// the one before.
pub fn first_excess(tokens: &Tokens<'_>) -> Option<u32>
    ensures some { IfSome result (IsFirst IsExcess tokens.now) }
    ensures none { IfNone result (HasNone IsExcess tokens.now) }
{
    let mut opened = 0usize;
    let mut closed = 0usize;
    // How many tokens stand behind the last `;`, `{` or `}`, where there was one.
    let mut behind_break = None;
    for number in 0..tokens.len() {
        let token = tokens.at(number);
        opened += usize::from(is_opening(&token));
        closed += usize::from(is_closing(&token));
        if opened.saturating_sub(closed) > MOST_OPEN {
            return Some(token.at);
        }
        behind_break = match (is_break(&token), behind_break) {
            (true, Some(between)) if between > MOST_BETWEEN => return Some(token.at),
            (true, _) => Some(0usize),
            (false, Some(between)) => Some(between + 1),
            (false, None) => None,
        };
    }
    None
}
