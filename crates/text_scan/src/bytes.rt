// Classes of bytes, and the front of a text that is of one class.
ghost use Rattle.std.specs.Prelude.{◌≡◌, ◌++◌, true, List, ℕ, IfSome, IfNone};
ghost use Rattle.std.specs.List.{list_all};
ghost use Rattle.grammar.specs.Bytes.{is_letter, is_digit};
ghost use Rattle.grammar.specs.Tokens.{is_blank};
ghost use Rattle.text_scan.specs.Classes.{begins_name, is_in, BeginsOutside};

/// A class of bytes.
#[derive(Clone, Copy)]
pub enum ByteClass {
    /// Letters, digits and `_`.
    Word,
    /// The same and `$`.
    WordOrDollar,
    Digit,
    /// Hexadecimal digits of either case.
    Hex,
    /// All but the line feed.
    NotLineFeed,
    /// All but `'`.
    NotApostrophe,
    /// The bytes 32 to 126 without `"` and `\`: what stands for itself in a string.
    Quotable,
}

/// A text in two: the front, and the rest behind it.
#[derive(Clone, Copy)]
pub struct Split<'a> {
    pub front: &'a [u8],
    pub rest: &'a [u8],
}

/// A to Z and a to z.
pub fn is_letter(byte: u8) -> bool
    ensures { result ≡ is_letter byte }
{
    b'A' <= byte && byte <= b'Z' || b'a' <= byte && byte <= b'z'
}

/// 0 to 9.
pub fn is_digit(byte: u8) -> bool
    ensures { result ≡ is_digit byte }
{
    b'0' <= byte && byte <= b'9'
}

/// A letter or `_`.
pub fn begins_name(byte: u8) -> bool
    ensures { result ≡ begins_name byte }
{
    is_letter(byte) || byte == b'_'
}

/// Blank, tab, line feed, form feed, carriage return.
pub fn is_blank(byte: u8) -> bool
    ensures { result ≡ is_blank byte }
{
    byte == b' ' || byte == b'\t' || byte == b'\n' || byte == 12 || byte == b'\r'
}

/// Whether the byte is of the class.
pub fn is_in(class: ByteClass, byte: u8) -> bool
    ensures { result ≡ is_in class byte }
{
    match class {
        ByteClass::Word => is_letter(byte) || is_digit(byte) || byte == b'_',
        ByteClass::WordOrDollar => begins_name(byte) || is_digit(byte) || byte == b'$',
        ByteClass::Digit => is_digit(byte),
        ByteClass::Hex => {
            is_digit(byte) || b'A' <= byte && byte <= b'F' || b'a' <= byte && byte <= b'f'
        }
        ByteClass::NotLineFeed => byte != b'\n',
        ByteClass::NotApostrophe => byte != b'\'',
        ByteClass::Quotable => b' ' <= byte && byte <= b'~' && byte != b'"' && byte != b'\\',
    }
}

/// The longest front of the text that is of the class.
pub fn split_front(text: &[u8], class: ByteClass) -> Split<'_>
    ensures joined { text.now ≡ result.front.now ++ result.rest.now }
    ensures front { list_all (is_in class) result.front.now ≡ true }
    ensures rest { BeginsOutside class result.rest.now }
{
    let mut length = 0;
    while length < text.len() && is_in(class, text[length]) {
        length += 1;
    }
    Split {
        front: &text[..length],
        rest: &text[length..],
    }
}

/// What follows the bytes `front`, where the text begins with them.
pub fn after<'a>(text: &'a [u8], front: &[u8]) -> Option<&'a [u8]>
    ensures some { IfSome result (λ rest. text.now ≡ front.now ++ rest.now) }
    ensures none { IfNone result ((rest : List ℕ) → text.now ≡ front.now ++ rest → ⊥) }
{
    text.strip_prefix(front)
}
