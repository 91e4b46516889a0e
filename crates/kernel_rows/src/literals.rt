// The words that numbers of the host become in a type of streams.
ghost use Rattle.std.specs.Prelude.{◌≡◌, ◌≤◌};
ghost use Rattle.fix_arith.specs.Types.{HasWidth};
ghost use Rattle.kernel_meaning.specs.Typing as Typing;

use fix_arith::{Number, RoundMode, StreamType, TypeError, literal};

/// The bits of the word of a type that stands for a number: `digits` over ten to the power of
/// `tens`, below 0 or not, rounded by the mode.
///
/// Its errors are `NotForType` and `LiteralRange`.
pub fn literal_bits(
    mode: RoundMode,
    negative: bool,
    digits: u128,
    tens: u8,
    of: StreamType,
) -> Result<u128, TypeError>
    requires width { HasWidth of }
    requires tens { tens ≤ 30 }
    ensures { result ≡ Typing.literal_bits mode negative digits tens of }
{
    let number = Number {
        negative,
        digits,
        tens,
    };
    match literal(&number, mode, of) {
        Ok(word) => Ok(word.bits()),
        Err(error) => Err(error),
    }
}
