// Why a kernel has no problem.
ghost use Rattle.std.specs.Prelude.{◌≡◌};

use crate::ClosedWalk;
use mx_base::NoMemory;
use mx_bits::Op;
use std::alloc::{AllocError, AllocFailed};

/// Why a kernel has no problem of schedules.
#[derive(Debug, Drop)]
pub enum EdgeError {
    /// The table has no latency for this operation on operands of this width in bits.
    NoLatency(Op, u8),
    /// On this closed walk no tick is looked back.
    Cycle(ClosedWalk),
    /// No memory was left.
    NoMemory,
}

impl From<NoMemory> for EdgeError {
    ghost from_gives = { λ _ e. e ≡ NoMemory };

    ghost use Rattle.offset_edges.specs.declared.error.EdgeError.TheVariants.{NoMemory};

    fn from(_: NoMemory) -> Self {
        EdgeError::NoMemory
    }
}

impl<T: Drop> From<AllocFailed<T>> for EdgeError {
    ghost from_gives = { λ _ e. e ≡ NoMemory };

    ghost use Rattle.offset_edges.specs.declared.error.EdgeError.TheVariants.{NoMemory};

    fn from(_: AllocFailed<T>) -> Self {
        EdgeError::NoMemory
    }
}

impl From<AllocError> for EdgeError {
    ghost from_gives = { λ _ e. e ≡ NoMemory };

    ghost use Rattle.offset_edges.specs.declared.error.EdgeError.TheVariants.{NoMemory};

    fn from(_: AllocError) -> Self {
        EdgeError::NoMemory
    }
}
