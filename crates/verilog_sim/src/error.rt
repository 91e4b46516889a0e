// Why a design is not simulated.
ghost use Rattle.std.specs.Prelude.{◌≡◌};

use mx_base::NoMemory;
use std::alloc::AllocError;

/// Why a design is not simulated.
#[derive(Clone, Copy, Debug, PartialEq, Eq)]
pub enum SimError {
    /// The design has more than 2^26 wires, registers and memory words: their number, or 2^64 - 1
    /// where it is greater.
    TooManyCells(u64),
    /// No memory was left.
    NoMemory,
}

impl From<NoMemory> for SimError {
    ghost from_gives = { λ _ e. e ≡ NoMemory };

    ghost use Rattle.verilog_sim.specs.declared.error.SimError.TheVariants.{NoMemory};

    fn from(_: NoMemory) -> Self {
        SimError::NoMemory
    }
}

impl From<AllocError> for SimError {
    ghost from_gives = { λ _ e. e ≡ NoMemory };

    ghost use Rattle.verilog_sim.specs.declared.error.SimError.TheVariants.{NoMemory};

    fn from(_: AllocError) -> Self {
        SimError::NoMemory
    }
}
