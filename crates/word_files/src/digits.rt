// The digits of written words.
ghost use Rattle.std.specs.Prelude.{◌≡◌, ◌≤◌, ◌<◌, ◌+◌, take};
ghost use Rattle.word_files.specs.Written.{lower_digit, lower_digits, digit_count, digits_of};

use mx_bits::Word;

/// A line of a written word has at most so many bytes: 32 digits and the LF.
pub(crate) const MOST_LINE: usize = 33;

/// The digits of a word in lower case, or as many `x` where it is undefined, as the first bytes.
pub(crate) fn digits(width: u8, word: Option<Word>) -> [u8; MOST_LINE]
    requires { width ≤ 128 }
    ensures { take (digit_count width) result ≡ digits_of width word }
{
    match word {
        Some(word) => lower_hex(count_digits(width), word.bits()),
        None => [b'x'; MOST_LINE],
    }
}

/// How many digits a word of this width has.
pub(crate) fn count_digits(width: u8) -> usize
    requires { width ≤ 128 }
    ensures count { result ≡ digit_count width }
    ensures at_most { result ≤ 32 }
{
    (width as usize + 3) / 4
}

// The low digits of a number, as the first bytes.
fn lower_hex(count: usize, value: u128) -> [u8; MOST_LINE]
    requires { count ≤ 32 }
    ensures { take count result ≡ lower_digits count value }
{
    let mut line = [0; MOST_LINE];
    let mut rest = value;
    let mut place = count;
    while place > 0 {
        place -= 1;
        line[place] = digit((rest % 16) as u8);
        rest /= 16;
    }
    line
}

fn digit(value: u8) -> u8
    requires { value < 16 }
    ensures { result ≡ lower_digit value }
{
    if value < 10 {
        b'0' + value
    } else {
        b'a' - 10 + value
    }
}
