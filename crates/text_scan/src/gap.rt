// White space and comments, in Verilog as in IEEE 1364-2005, 3.2 and 3.3.
ghost use Rattle.std.specs.Prelude.{◌≡◌, ◌<◌, ◌++◌, ◌∷◌, [], List, ℕ, length, IfSome, IfNone};
ghost use Rattle.grammar.specs.Tokens.{HasNoClose};
ghost use Rattle.text_scan.specs.Gaps.{Skips, BeginsNoGap};

use crate::bytes::{ByteClass, Split, after, is_blank, split_front};

/// A text round its first `*/`: what stands before it, and what stands behind it.
fn split_close(text: &[u8]) -> Option<Split<'_>>
    ensures some { IfSome result (λ s. text.now ≡ s.front.now ++ 42 ∷ 47 ∷ s.rest.now) }
    ensures first { IfSome result (λ s. HasNoClose (s.front.now ++ 42 ∷ [])) }
    ensures none { IfNone result (HasNoClose text.now) }
{
    for at in 0..text.len() {
        if let Some(rest) = after(&text[at..], b"*/") {
            return Some(Split {
                front: &text[..at],
                rest,
            });
        }
    }
    None
}

/// What follows the blank or the comment at the front. A comment that isn't closed is none.
pub fn skip_gap(text: &[u8]) -> Option<&[u8]>
    ensures some { IfSome result (λ rest. Skips text.now rest.now) }
    ensures shorter { IfSome result (λ rest. length rest.now < length text.now) }
    ensures none { IfNone result (BeginsNoGap text.now) }
{
    if let Some(line) = after(text, b"//") {
        return Some(split_front(line, ByteClass::NotLineFeed).rest);
    }
    if let Some(block) = after(text, b"/*") {
        return match split_close(block) {
            Some(split) => Some(split.rest),
            None => None,
        };
    }
    match text.split_first() {
        Some((first, rest)) if is_blank(*first) => Some(rest),
        _ => None,
    }
}
