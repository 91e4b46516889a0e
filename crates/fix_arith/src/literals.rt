// The words that numbers written with a decimal point become.
ghost use Rattle.std.specs.Prelude.{◌≡◌, ◌≤◌, ◌<◌, ◌+◌, ◌*◌, ◌^◌, ◌↔◌, IsTrue, IfSome, IfNone, ◌+ℤ◌, ◌*ℤ◌, pos, unsigned_abs};
ghost use Rattle.fix_arith.specs.Types.{width_of, HasWidth};
ghost use Rattle.fix_arith.specs.Values.{signed_of};
ghost use Rattle.fix_arith.specs.Rounding.{rounded};
ghost use Rattle.fix_arith.specs.Integers.{exact};
ghost use Rattle.fix_arith.specs.Literals.{IsLiteral, IsWritable};

use crate::integer::Integer;
use crate::number::Number;
use crate::{RoundMode, StreamType, TypeError};
use mx_bits::{Op, Word};

// A quotient and what is left of the dividend.
#[derive(Clone, Copy)]
struct Quotient {
    whole: u128,
    left: u128,
}

/// The word of a type that stands for a number, rounded to the bits behind the type's point.
///
/// The error is `NotForType(Cast)` exactly where the number has digits behind the point and the type
/// isn't a `Fix`, else `LiteralRange` exactly where the rounded number isn't a value of the type.
pub fn literal(number: &Number, mode: RoundMode, out: StreamType) -> Result<Word, TypeError>
    requires { HasWidth out }
    ensures { IsLiteral number.now mode out result }
{
    if !is_writable(number, out) {
        return Err(TypeError::NotForType(Op::Cast));
    }
    let Some(value) = scaled(number, mode, out.frac()) else {
        return Err(TypeError::LiteralRange);
    };
    let word = value.reduced(out.width());
    if Integer::of_word(word, out).equals(value) {
        Ok(word)
    } else {
        Err(TypeError::LiteralRange)
    }
}

// Whether a number has no digits behind the point, or the type is a `Fix`.
fn is_writable(number: &Number, out: StreamType) -> bool
    ensures { IsTrue result ↔ IsWritable number.now out }
{
    number.tens == 0 || matches!(out, StreamType::Fix { .. })
}

// A number times two to `bits`, rounded. None where it has more than 128 bits.
fn scaled(number: &Number, mode: RoundMode, bits: u8) -> Option<Integer>
    ensures some { IfSome result (λ n. exact n ≡ rounded mode (signed_of number.now.negative number.now.digits *ℤ pos (2 ^ bits)) (10 ^ number.now.tens)) }
    ensures none { IfNone result (2 ^ 128 ≤ unsigned_abs
        (rounded mode (signed_of number.now.negative number.now.digits *ℤ pos (2 ^ bits))
        (10 ^ number.now.tens))) }
{
    let divisor = power_of_ten(number.tens);
    let size = long_division(number.digits, bits, divisor)?;
    let (floor, left) = size.below(number.negative, divisor);
    if !mode.rounds_up(floor.is_odd(), left.cmp(&(divisor - left))) {
        return Some(floor);
    }
    if floor.equals(Integer::Natural(u128::MAX)) {
        return None;
    }
    Some(floor.successor())
}

#[tactic(auto, using(crate::proofs::Divisions::tens))]
fn power_of_ten(tens: u8) -> u128
    requires { tens ≤ 30 }
    ensures value { result ≡ 10 ^ tens }
    ensures some { 0 < result }
{
    10u128.pow(tens as u32)
}

impl Quotient {
    // The quotient of twice the dividend.
    fn doubled(self, divisor: u128) -> Quotient
        requires left { self.left < divisor }
        requires fits { self.whole < 2 ^ 127 }
        ensures left { result.left < divisor }
        ensures twice { result.whole * divisor + result.left ≡ 2 * (self.whole * divisor + self.left) }
    {
        let rest = divisor - self.left;
        if rest <= self.left {
            Quotient {
                whole: 2 * self.whole + 1,
                left: self.left - rest,
            }
        } else {
            Quotient {
                whole: 2 * self.whole,
                left: 2 * self.left,
            }
        }
    }

    // The whole number below the quotient with this sign, and what it leaves.
    #[tactic(auto, using(crate::proofs::Divisions::belows))]
    fn below(self, negative: bool, divisor: u128) -> (Integer, u128)
        requires { self.left < divisor }
        ensures left { result.1 < divisor }
        ensures split { signed_of negative (self.whole * divisor + self.left) ≡ exact result.0 *ℤ pos divisor +ℤ pos result.1 }
    {
        if !negative {
            (Integer::Natural(self.whole), self.left)
        } else if self.left == 0 {
            (Integer::signed(true, self.whole), 0)
        } else {
            (Integer::Negative(self.whole), divisor - self.left)
        }
    }
}

// `digits` times two to `bits`, over the divisor. None where the quotient has more than 128 bits.
fn long_division(digits: u128, bits: u8, divisor: u128) -> Option<Quotient>
    requires { 0 < divisor }
    ensures some { IfSome result (λ q. (q.left < divisor) × (digits * 2 ^ bits ≡ q.whole * divisor + q.left)) }
    ensures none { IfNone result (2 ^ 128 * divisor ≤ digits * 2 ^ bits) }
{
    let mut quotient = Quotient {
        whole: digits / divisor,
        left: digits % divisor,
    };
    for _done in 0..bits {
        if 1 << 127 <= quotient.whole {
            return None;
        }
        quotient = quotient.doubled(divisor);
    }
    Some(quotient)
}
