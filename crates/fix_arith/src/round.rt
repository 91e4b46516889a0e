// Rounding of quotients.
ghost use Rattle.std.specs.Prelude.{◌≡◌, ◌≤◌, ◌<◌, ◌*◌, ◌^◌, ℕ};
ghost use Rattle.std.specs.Ordering.{nat_cmp};
ghost use Rattle.fix_arith.specs.Rounding.{rounded, rounds_up};
ghost use Rattle.fix_arith.specs.Integers.{exact};

use crate::RoundMode;
use crate::integer::Integer;
use std::cmp::Ordering;

impl RoundMode {
    /// Whether a quotient is rounded to the number above its floor, where the floor is odd or not, and
    /// what is left lies below, at or above the half.
    pub(crate) fn rounds_up(self, odd: bool, left: Ordering) -> bool
        ensures { (r d : ℕ) → left ≡ nat_cmp (2 * r) d → result ≡ rounds_up self odd r d }
    {
        match self {
            RoundMode::Truncate => false,
            RoundMode::ToNear => left != Ordering::Less,
            RoundMode::ToNearEven => left == Ordering::Greater || left == Ordering::Equal && odd,
        }
    }
}

// A number over two to `bits`, rounded.
pub fn rounded(n: Integer, bits: u8, mode: RoundMode) -> Integer
    requires { bits ≤ 128 }
    ensures { exact result ≡ rounded mode (exact n) (2 ^ bits) }
{
    if bits == 0 {
        return n;
    }
    let floor = n.shifted_right(bits);
    let left = n.reduced(bits).bits().cmp(&(1 << (bits - 1)));
    if mode.rounds_up(floor.is_odd(), left) {
        floor.successor()
    } else {
        floor
    }
}
