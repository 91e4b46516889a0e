// Whole numbers with a sign, of up to 129 bits, and the words that they are read from and become.
ghost use Rattle.std.specs.Prelude.{◌≡◌, ◌≢◌, ◌≤◌, ◌<◌, ◌-◌, ◌*◌, ◌^◌, ◌↔◌, ◌&&◌, nat_le, IsTrue, unsigned_abs, pos, ◌+ℤ◌, ◌*ℤ◌, int_lt, int_div};
ghost use Rattle.std.specs.Ordering.{int_cmp};
ghost use Rattle.std.specs.Int.{int_div_euclid};
ghost use Rattle.fix_arith.specs.Types.{width_of, is_signed, HasWidth};
ghost use Rattle.fix_arith.specs.Values.{value_of, reduced, signed_of};
ghost use Rattle.fix_arith.specs.Rounding.{is_odd, floor_of};

use crate::StreamType;
use mx_bits::Word;
use std::cmp::Ordering;

/// A whole number: `Natural(n)` is `n`, and `Negative(n)` is `-1 - n`, whose two's complement is `!n`.
#[derive(Clone, Copy, PartialEq, Eq)]
pub enum Integer {
    Natural(u128),
    Negative(u128),
}

// The low bits of a number.
#[tactic(auto, using(crate::proofs::Words::low_bits))]
fn low_word(n: u128, width: u8) -> Word
    requires some { 1 ≤ width }
    requires at_most { width ≤ 128 }
    ensures bits { result.bits ≡ reduced width (pos n) }
    ensures width { result.width ≡ width }
{
    Word::new(n, 128).part(width - 1, 0)
}

// Whether the number of a word is below 0.
#[tactic(auto, using(crate::proofs::Words::top_bit))]
fn is_below_zero(word: Word, t: StreamType) -> bool
    requires { word.width ≡ width_of t }
    ensures { result ≡ (is_signed t && nat_le (2 ^ (width_of t - 1)) word.bits) }
{
    t.is_signed() && word.bits() >> (word.width() - 1) == 1
}

impl Integer {
    ghost use Rattle.fix_arith.specs.Integers.{exact};

    /// The number of a word in a type.
    #[tactic(auto, using(crate::proofs::Words::reading, crate::proofs::Words::sizes, crate::proofs::Products::within))]
    pub fn of_word(word: Word, t: StreamType) -> Integer
        requires width { HasWidth t }
        requires word { word.width ≡ width_of t }
        ensures value { exact result ≡ value_of t word.bits }
        ensures size { unsigned_abs (exact result) < 2 ^ width_of t }
        ensures fits { unsigned_abs (exact result) < 2 ^ 128 }
    {
        if is_below_zero(word, t) {
            Integer::Negative(word.not().bits())
        } else {
            Integer::Natural(word.bits())
        }
    }

    // The word of this width that has this number modulo two to the width.
    #[tactic(auto, using(crate::proofs::Words::opposite))]
    pub fn reduced(self, width: u8) -> Word
        requires some { 1 ≤ width }
        requires at_most { width ≤ 128 }
        ensures bits { result.bits ≡ reduced width (exact self) }
        ensures width { result.width ≡ width }
    {
        match self {
            Integer::Natural(n) => low_word(n, width),
            Integer::Negative(n) => low_word(n, width).not(),
        }
    }

    // The word of this width that has this number times two to `bits`, modulo two to the width.
    #[tactic(auto, using(crate::proofs::Casts::shifted_left))]
    pub fn shifted_left(self, bits: u8, width: u8) -> Word
        requires some { 1 ≤ width }
        requires at_most { width ≤ 128 }
        ensures bits { result.bits ≡ reduced width (exact self *ℤ pos (2 ^ bits)) }
        ensures width { result.width ≡ width }
    {
        low_word(self.reduced(128).bits().unbounded_shl(bits as u32), width)
    }

    // This number over two to `bits`, rounded down.
    #[tactic(auto, using(crate::proofs::Words::shifting))]
    pub fn shifted_right(self, bits: u8) -> Integer
        ensures { exact result ≡ floor_of (exact self) (2 ^ bits) }
    {
        match self {
            Integer::Natural(n) => Integer::Natural(n.unbounded_shr(bits as u32)),
            Integer::Negative(n) => Integer::Negative(n.unbounded_shr(bits as u32)),
        }
    }

    pub fn is_odd(self) -> bool
        ensures { result ≡ is_odd (exact self) }
    {
        match self {
            Integer::Natural(n) => n % 2 == 1,
            Integer::Negative(n) => n % 2 == 0,
        }
    }

    // The next greater number.
    pub fn successor(self) -> Integer
        requires { self ≢ Integer.Natural (2 ^ 128 - 1) }
        ensures { exact result ≡ exact self +ℤ pos 1 }
    {
        match self {
            Integer::Natural(n) => Integer::Natural(n + 1),
            Integer::Negative(0) => Integer::Natural(0),
            Integer::Negative(n) => Integer::Negative(n - 1),
        }
    }

    // Whether both are one number.
    pub fn equals(self, other: Integer) -> bool
        ensures { IsTrue result ↔ (exact self ≡ exact other) }
    {
        self == other
    }

    // How both numbers compare.
    pub fn compare(self, other: Integer) -> Ordering
        ensures { result ≡ int_cmp (exact self) (exact other) }
    {
        match (self, other) {
            (Integer::Natural(m), Integer::Natural(n)) => m.cmp(&n),
            (Integer::Natural(_), Integer::Negative(_)) => Ordering::Greater,
            (Integer::Negative(_), Integer::Natural(_)) => Ordering::Less,
            (Integer::Negative(m), Integer::Negative(n)) => n.cmp(&m),
        }
    }

    // The product.
    pub fn times(self, other: Integer) -> Integer
        requires first { unsigned_abs (exact self) < 2 ^ 128 }
        requires second { unsigned_abs (exact other) < 2 ^ 128 }
        requires product { unsigned_abs (exact self) * unsigned_abs (exact other) < 2 ^ 128 }
        ensures { exact result ≡ exact self *ℤ exact other }
    {
        Integer::signed(
            self.is_negative() != other.is_negative(),
            self.size() * other.size(),
        )
    }

    // The quotient, rounded toward zero.
    pub fn over(self, other: Integer) -> Integer
        requires dividend { unsigned_abs (exact self) < 2 ^ 128 }
        requires divisor { unsigned_abs (exact other) < 2 ^ 128 }
        requires some { 0 < unsigned_abs (exact other) }
        ensures { exact result ≡ int_div (exact self) (exact other) }
    {
        Integer::signed(
            self.is_negative() != other.is_negative(),
            self.size() / other.size(),
        )
    }

    // The number of this size, below 0 or not.
    pub fn signed(negative: bool, size: u128) -> Integer
        ensures { exact result ≡ signed_of negative size }
    {
        if negative && size != 0 {
            Integer::Negative(size - 1)
        } else {
            Integer::Natural(size)
        }
    }

    fn is_negative(self) -> bool
        ensures { result ≡ int_lt (exact self) (pos 0) }
    {
        matches!(self, Integer::Negative(_))
    }

    // The size without the sign.
    fn size(self) -> u128
        requires { unsigned_abs (exact self) < 2 ^ 128 }
        ensures { result ≡ unsigned_abs (exact self) }
    {
        match self {
            Integer::Natural(n) => n,
            Integer::Negative(n) => n + 1,
        }
    }
}
