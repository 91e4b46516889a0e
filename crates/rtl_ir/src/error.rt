// Which rule a design breaks.
ghost use Rattle.std.specs.Prelude.{◌≡◌};

use mx_base::{List, NoMemory, Text};
use std::alloc::AllocError;

/// The rule that a design breaks, with the names of what breaks it, or want of memory.
#[derive(Drop)]
pub enum RtlError {
    /// A name that isn't declared before it is used.
    Unknown(Text),
    /// The target of an assignment, an update or a port whose widths differ.
    Width(Text),
    /// A net or a memory with more drivers than it may have, or with one that it may not have.
    TwoDrivers(Text),
    /// Nets each of which feeds the next one without a register between, and the last one the first.
    CombLoop(List<Text>),
    /// A net that lacks its driver.
    NoDriver(Text),
    /// A name that is declared twice.
    SameName(Text),
    /// No memory was left.
    NoMemory,
}

impl From<NoMemory> for RtlError {
    ghost from_gives = { λ _ e. e ≡ NoMemory };

    ghost use Rattle.rtl_ir.specs.declared.error.RtlError.TheVariants.{NoMemory};

    fn from(_: NoMemory) -> Self {
        RtlError::NoMemory
    }
}

impl From<AllocError> for RtlError {
    ghost from_gives = { λ _ e. e ≡ NoMemory };

    ghost use Rattle.rtl_ir.specs.declared.error.RtlError.TheVariants.{NoMemory};

    fn from(_: AllocError) -> Self {
        RtlError::NoMemory
    }
}
