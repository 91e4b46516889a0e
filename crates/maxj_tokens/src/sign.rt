// The signs of a source.
ghost use Rattle.std.specs.Prelude.{◌≡◌, ◌∷◌, [], false, MatchOption};
ghost use Rattle.maxj_tokens.specs.Tokens.{is_sign};
ghost use Rattle.maxj_tokens.specs.Reading.{sign_bytes};

/// A sign.
#[derive(Clone, Copy, PartialEq, Eq)]
pub enum Sign {
    /// `(`
    Open,
    /// `)`
    Close,
    OpenBrace,
    CloseBrace,
    OpenBracket,
    CloseBracket,
    Semicolon,
    Comma,
    Dot,
    /// `=`
    Assign,
    Plus,
    Minus,
    Star,
    Slash,
    Percent,
    /// `&`
    And,
    /// `|`
    Or,
    /// `^`
    Xor,
    Tilde,
    /// `!`
    Not,
    Question,
    Colon,
    Less,
    Greater,
    LessEqual,
    GreaterEqual,
    /// `==`
    Equal,
    /// `!=`
    NotEqual,
    /// `===`
    Same,
    /// `!==`
    NotSame,
    ShiftLeft,
    ShiftRight,
    AndAnd,
    OrOr,
    PlusPlus,
    MinusMinus,
    PlusAssign,
    MinusAssign,
    StarAssign,
    /// `<==`
    Connect,
}

/// The sign that one byte is.
pub fn single(byte: u8) -> Option<Sign>
    ensures { MatchOption result (is_sign (byte ∷ []) ≡ false) (λ s. sign_bytes s ≡ byte ∷ []) }
{
    Some(match byte {
        b'(' => Sign::Open,
        b')' => Sign::Close,
        b'{' => Sign::OpenBrace,
        b'}' => Sign::CloseBrace,
        b'[' => Sign::OpenBracket,
        b']' => Sign::CloseBracket,
        b';' => Sign::Semicolon,
        b',' => Sign::Comma,
        b'.' => Sign::Dot,
        b'=' => Sign::Assign,
        b'+' => Sign::Plus,
        b'-' => Sign::Minus,
        b'*' => Sign::Star,
        b'/' => Sign::Slash,
        b'%' => Sign::Percent,
        b'&' => Sign::And,
        b'|' => Sign::Or,
        b'^' => Sign::Xor,
        b'~' => Sign::Tilde,
        b'!' => Sign::Not,
        b'?' => Sign::Question,
        b':' => Sign::Colon,
        b'<' => Sign::Less,
        b'>' => Sign::Greater,
        _ => return None,
    })
}

/// The sign that a byte and `=` are.
fn with_equals(byte: u8) -> Option<Sign>
    ensures { MatchOption result (is_sign (byte ∷ 61 ∷ []) ≡ false) (λ s. sign_bytes s ≡ byte ∷ 61 ∷ []) }
{
    Some(match byte {
        b'<' => Sign::LessEqual,
        b'>' => Sign::GreaterEqual,
        b'=' => Sign::Equal,
        b'!' => Sign::NotEqual,
        b'+' => Sign::PlusAssign,
        b'-' => Sign::MinusAssign,
        b'*' => Sign::StarAssign,
        _ => return None,
    })
}

/// The sign that a byte twice is.
fn twice(byte: u8) -> Option<Sign>
    ensures { MatchOption result (is_sign (byte ∷ byte ∷ []) ≡ false) (λ s. sign_bytes s ≡ byte ∷ byte ∷ []) }
{
    Some(match byte {
        b'=' => Sign::Equal,
        b'<' => Sign::ShiftLeft,
        b'>' => Sign::ShiftRight,
        b'&' => Sign::AndAnd,
        b'|' => Sign::OrOr,
        b'+' => Sign::PlusPlus,
        b'-' => Sign::MinusMinus,
        _ => return None,
    })
}

/// The sign that two bytes are.
pub fn double(first: u8, second: u8) -> Option<Sign>
    ensures { MatchOption result (is_sign (first ∷ second ∷ []) ≡ false) (λ s. sign_bytes s ≡ first ∷ second ∷ []) }
{
    if second == b'=' {
        with_equals(first)
    } else if second == first {
        twice(first)
    } else {
        None
    }
}

/// The sign that a byte and `==` are.
pub fn triple(byte: u8) -> Option<Sign>
    ensures { MatchOption result (is_sign (byte ∷ 61 ∷ 61 ∷ []) ≡ false) (λ s. sign_bytes s ≡ byte ∷ 61 ∷ 61 ∷ []) }
{
    Some(match byte {
        b'=' => Sign::Same,
        b'!' => Sign::NotSame,
        b'<' => Sign::Connect,
        _ => return None,
    })
}

impl Sign {
    /// The bytes of the sign.
    pub fn bytes(self) -> &'static [u8]
        ensures { result.now ≡ sign_bytes self }
    {
        match self {
            Sign::Open => b"(",
            Sign::Close => b")",
            Sign::OpenBrace => b"{",
            Sign::CloseBrace => b"}",
            Sign::OpenBracket => b"[",
            Sign::CloseBracket => b"]",
            Sign::Semicolon => b";",
            Sign::Comma => b",",
            Sign::Dot => b".",
            Sign::Assign => b"=",
            Sign::Plus => b"+",
            Sign::Minus => b"-",
            Sign::Star => b"*",
            Sign::Slash => b"/",
            Sign::Percent => b"%",
            Sign::And => b"&",
            Sign::Or => b"|",
            Sign::Xor => b"^",
            Sign::Tilde => b"~",
            Sign::Not => b"!",
            Sign::Question => b"?",
            Sign::Colon => b":",
            Sign::Less => b"<",
            Sign::Greater => b">",
            Sign::LessEqual => b"<=",
            Sign::GreaterEqual => b">=",
            Sign::Equal => b"==",
            Sign::NotEqual => b"!=",
            Sign::Same => b"===",
            Sign::NotSame => b"!==",
            Sign::ShiftLeft => b"<<",
            Sign::ShiftRight => b">>",
            Sign::AndAnd => b"&&",
            Sign::OrOr => b"||",
            Sign::PlusPlus => b"++",
            Sign::MinusMinus => b"--",
            Sign::PlusAssign => b"+=",
            Sign::MinusAssign => b"-=",
            Sign::StarAssign => b"*=",
            Sign::Connect => b"<==",
        }
    }
}
