// Numbers written with a decimal point.
ghost use Rattle.std.specs.Prelude.{◌≤◌};

/// A number as it is written: `digits` over ten to the power of `tens`, which is at most 30, below 0 or
/// not.
#[derive(Clone, Copy, PartialEq, Eq)]
pub struct Number {
    pub negative: bool,
    pub digits: u128,
    pub tens: u8,
    ghost few: { tens ≤ 30 },
}
