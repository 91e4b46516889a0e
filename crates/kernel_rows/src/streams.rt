// Types of streams that rows compare.
ghost use Rattle.std.specs.Prelude.{◌≡◌};
ghost use Rattle.kernel_meaning.specs.StreamRows as Rows;
ghost use Rattle.kernel_meaning.specs.Typing.{same_type};

use fix_arith::StreamType;

/// Whether words of the type have one bit and no sign: `dfeBool()` and `dfeUInt(1)`.
pub fn is_bit(of: StreamType) -> bool
    ensures { result ≡ Rows.is_bit of }
{
    matches!(of, StreamType::Bool | StreamType::UInt(1))
}

/// Whether two types are one.
pub fn is_same(first: StreamType, second: StreamType) -> bool
    ensures { result ≡ same_type first second }
{
    match (first, second) {
        (StreamType::UInt(a), StreamType::UInt(b)) | (StreamType::Int(a), StreamType::Int(b)) => a
            == b,
        (
            StreamType::Fix {
                whole,
                frac,
                signed,
            },
            StreamType::Fix {
                whole: other_whole,
                frac: other_frac,
                signed: other_signed,
            },
        ) => whole == other_whole && frac == other_frac && signed == other_signed,
        (StreamType::Bool, StreamType::Bool) => true,
        _ => false,
    }
}
