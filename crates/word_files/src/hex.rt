// Words as hexadecimal digits.
ghost use Rattle.std.specs.Prelude.{◌≡◌, ◌<◌, ◌^◌, nat_lt, Some, None, IfSome, if◌then◌else◌};
ghost use Rattle.grammar.specs.Bytes.{is_hex, hex_value};
ghost use Rattle.word_files.specs.Hex.{word_of};

/// A word has at most so many digits.
pub(crate) const MOST_DIGITS: usize = 32;

/// The number that 1 to 32 hexadecimal digits of either case say; `None` where the bytes aren't that.
pub(crate) fn parse_word(bytes: &[u8]) -> Option<u128>
    ensures { result ≡ word_of bytes.now }
{
    if bytes.is_empty() || bytes.len() > MOST_DIGITS {
        return None;
    }
    let mut value: u128 = 0;
    for byte in bytes {
        value = value * 16 + u128::from(digit(*byte)?);
    }
    Some(value)
}

/// Whether a number has at most so many bits.
pub(crate) fn is_below(value: u128, width: u8) -> bool
    ensures { result ≡ nat_lt value (2 ^ width) }
{
    width >= 128 || value >> width == 0
}

fn digit(byte: u8) -> Option<u8>
    ensures value { result ≡ (if is_hex byte then Some (hex_value byte) else None) }
    ensures below { IfSome result (λ d. d < 16) }
{
    match byte {
        b'0'..=b'9' => Some(byte - b'0'),
        b'A'..=b'F' => Some(byte - b'A' + 10),
        b'a'..=b'f' => Some(byte - b'a' + 10),
        _ => None,
    }
}
