// Casts of words from one type to another.
ghost use Rattle.std.specs.Prelude.{◌≡◌};
ghost use Rattle.fix_arith.specs.Types.{width_of, HasWidth};
ghost use Rattle.fix_arith.specs.Table.{cast_of};

use crate::integer::Integer;
use crate::round::rounded;
use crate::{RoundMode, StreamType};
use mx_bits::Word;

/// The word of the new type whose number is that of the old one, rounded to the bits behind the new
/// point and then reduced modulo two to the new width. The word has the width of `from`.
pub fn cast(word: Word, from: StreamType, to: StreamType, mode: RoundMode) -> Word
    requires from { HasWidth from }
    requires to { HasWidth to }
    requires word { word.width ≡ width_of from }
    ensures bits { result.bits ≡ cast_of mode from to word.bits }
    ensures width { result.width ≡ width_of to }
{
    let number = Integer::of_word(word, from);
    let (old, new) = (from.frac(), to.frac());
    if old <= new {
        number.shifted_left(new - old, to.width())
    } else {
        rounded(number, old - new, mode).reduced(to.width())
    }
}
