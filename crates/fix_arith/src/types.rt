// The types of streams, the modes of rounding, and the faults of types.
ghost use Rattle.std.specs.Prelude.{◌≡◌, ◌≤◌, ◌<◌, IsTrue};

use mx_bits::Op;

/// The type of a stream: how the bits of its words are read.
///
/// `UInt` and `Bool` are whole numbers of that many bits, and of one bit. `Int` is a whole number in
/// two's complement. `Fix` is such a number, signed or not, of `whole + frac` bits over two to the
/// power of `frac`. Every call of this crate asks for types of 1 to 128 bits.
#[derive(Clone, Copy, Debug, PartialEq, Eq)]
pub enum StreamType {
    UInt(u8),
    Int(u8),
    Fix { whole: u8, frac: u8, signed: bool },
    Bool,
}

/// How a number between two whole numbers is rounded: down; to the nearest, halves up; or to the
/// nearest, halves to the even number.
#[derive(Clone, Copy, Debug, PartialEq, Eq)]
pub enum RoundMode {
    Truncate,
    ToNear,
    ToNearEven,
}

/// What an operation's types, or a literal, can break. The faults are numbered from 1 in this order,
/// and where several stand, the one with the least number is answered.
#[derive(Clone, Copy, Debug, PartialEq, Eq)]
pub enum TypeError {
    /// Operands that must have one type have several.
    TypesDiffer,
    /// The operation isn't defined on these types.
    NotForType(Op),
    /// A product of `Fix` of more than 64 bits.
    MulTooWide,
    /// A number that isn't a value of the type.
    LiteralRange,
    /// A shift by a number of bits below 0 or above 127.
    ShiftRange(i32),
    /// A multiplexer with this number of options, which is below 2, above 64, or more than its
    /// selector can number.
    MuxCount(usize),
}

impl StreamType {
    ghost use Rattle.fix_arith.specs.Types.{width_of, frac_of, is_signed, HasWidth};

    /// The bits of a word of this type.
    pub fn width(self) -> u8
        requires { HasWidth self }
        ensures { result ≡ width_of self }
    {
        match self {
            StreamType::UInt(bits) | StreamType::Int(bits) => bits,
            StreamType::Fix { whole, frac, .. } => whole + frac,
            StreamType::Bool => 1,
        }
    }

    /// The bits of a word of this type that stand behind the point.
    pub fn frac(self) -> u8
        ensures { result ≡ frac_of self }
    {
        match self {
            StreamType::Fix { frac, .. } => frac,
            _ => 0,
        }
    }

    /// Whether this type has negative values, in two's complement.
    pub fn is_signed(self) -> bool
        ensures { result ≡ is_signed self }
    {
        match self {
            StreamType::Int(_) => true,
            StreamType::Fix { signed, .. } => signed,
            _ => false,
        }
    }
}
