// Why a run stops before its end.
ghost use Rattle.std.specs.Prelude.{◌≡◌};
ghost use Rattle.simulation.specs.Errors.{stop_of, refused_by};

use mx_base::{NoMemory, Text};
use std::alloc::{AllocError, AllocFailed};
use verilog_sim::SimError;
use word_files::WordError;

/// How a run ended: whether the port done was 1, and after how many edges.
#[derive(Clone, Copy, PartialEq, Eq)]
pub struct Outcome {
    pub done: bool,
    pub edges: u64,
}

/// Why a run stops before its end.
#[derive(Debug, PartialEq, Eq, Drop)]
pub enum Stop {
    /// The design has more than 2^26 wires, registers and memory words: their number, or 2^64 - 1
    /// where it is greater.
    TooManyCells(u64),
    /// The line of this number, from 1, of this file isn't 1 to 32 hexadecimal digits.
    BadLine(Text, u64),
    /// The line of this number of this file says a number that has more bits than the words of its
    /// stream.
    WordRange(Text, u64),
    /// A read failed, or the file isn't held.
    ReadFault,
    /// A write failed.
    WriteFault,
    /// No memory was left.
    NoMemory,
}

impl From<NoMemory> for Stop {
    ghost from_gives = { λ _ e. e ≡ NoMemory };

    ghost use Rattle.simulation.specs.declared.stop.Stop.TheVariants.{NoMemory};

    fn from(_: NoMemory) -> Self {
        Stop::NoMemory
    }
}

impl From<AllocError> for Stop {
    ghost from_gives = { λ _ e. e ≡ NoMemory };

    ghost use Rattle.simulation.specs.declared.stop.Stop.TheVariants.{NoMemory};

    fn from(_: AllocError) -> Self {
        Stop::NoMemory
    }
}

/// What a reader or a writer of words answers.
impl From<WordError> for Stop {
    ghost from_gives = { λ error e. e ≡ stop_of error };

    ghost use Rattle.simulation.specs.Errors.{stop_of};

    fn from(error: WordError) -> Self {
        match error {
            WordError::BadLine(file, line) => Stop::BadLine(file, line),
            WordError::WordRange(file, line) => Stop::WordRange(file, line),
            WordError::ReadFault => Stop::ReadFault,
            WordError::WriteFault => Stop::WriteFault,
            WordError::NoMemory => Stop::NoMemory,
        }
    }
}

impl From<SimError> for Stop {
    ghost from_gives = { λ error e. e ≡ refused_by error };

    ghost use Rattle.simulation.specs.Errors.{refused_by};

    fn from(error: SimError) -> Self {
        match error {
            SimError::TooManyCells(cells) => Stop::TooManyCells(cells),
            SimError::NoMemory => Stop::NoMemory,
        }
    }
}

impl<T: Drop> From<AllocFailed<T>> for Stop {
    ghost from_gives = { λ _ e. e ≡ NoMemory };

    ghost use Rattle.simulation.specs.declared.stop.Stop.TheVariants.{NoMemory};

    fn from(_: AllocFailed<T>) -> Self {
        Stop::NoMemory
    }
}
