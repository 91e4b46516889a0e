// Why trees have no design.
ghost use Rattle.std.specs.Prelude.{◌≡◌};

use mx_base::NoMemory;
use std::alloc::AllocError;

/// Why trees have no design.
#[derive(Clone, Copy, Debug)]
pub(crate) enum Fault<'a> {
    /// The first name that is used and isn't declared before.
    Unknown(&'a [u8]),
    /// No memory was left.
    NoMemory,
}

impl<'a> From<NoMemory> for Fault<'a> {
    ghost from_gives = { λ _ e. e ≡ NoMemory };

    ghost use Rattle.verilog_read.specs.declared.fault.Fault.TheVariants.{NoMemory};

    fn from(_: NoMemory) -> Self {
        Fault::NoMemory
    }
}

impl<'a> From<AllocError> for Fault<'a> {
    ghost from_gives = { λ _ e. e ≡ NoMemory };

    ghost use Rattle.verilog_read.specs.declared.fault.Fault.TheVariants.{NoMemory};

    fn from(_: AllocError) -> Self {
        Fault::NoMemory
    }
}
