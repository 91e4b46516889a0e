// Names, and words that are no names.
ghost use Rattle.std.specs.Prelude.{◌≡◌, List, ℕ};
ghost use Rattle.std.specs.Borrow.{Bor};
ghost use Rattle.std.specs.List.{list_all, list_any};
ghost use Rattle.std.specs.Str.{bytes_eq};
ghost use Rattle.maxj_tokens.specs.Tokens.{is_word, is_name_byte, is_among};
ghost use Rattle.maxj_tokens.specs.Faults.{foreign_words};

use text_scan::{ByteClass, begins_name, split_front};

/// Whether all of the bytes may stand in a name.
fn are_name_bytes(bytes: &[u8]) -> bool
    ensures { result ≡ list_all is_name_byte bytes.now }
{
    split_front(bytes, ByteClass::Word).rest.is_empty()
}

/// Whether the bytes are a name, or a word that is no name.
pub fn is_word(bytes: &[u8]) -> bool
    ensures { result ≡ is_word bytes.now }
{
    match bytes.split_first() {
        Some((first, rest)) => begins_name(*first) && are_name_bytes(rest),
        None => false,
    }
}

/// Whether the word is one of these.
pub fn is_among(word: &[u8], words: &[&[u8]]) -> bool
    ensures { result ≡ list_any (λ (w : Bor (List ℕ)). bytes_eq word.now w.now) words.now }
{
    for other in words {
        if word == *other {
            return true;
        }
    }
    false
}

/// Whether the word is one of Java that no source uses.
pub fn is_foreign_word(word: &[u8]) -> bool
    ensures { result ≡ is_among word.now foreign_words }
{
    is_among(
        word,
        &[
            b"break",
            b"continue",
            b"do",
            b"switch",
            b"case",
            b"default",
            b"try",
            b"catch",
            b"finally",
            b"throw",
            b"throws",
            b"interface",
            b"enum",
            b"implements",
            b"abstract",
            b"synchronized",
            b"instanceof",
            b"double",
            b"float",
            b"long",
            b"byte",
            b"short",
            b"char",
            b"null",
            b"volatile",
            b"native",
            b"assert",
            b"goto",
        ],
    )
}
