// Why a file of a simulation is refused.
ghost use Rattle.std.specs.Prelude.{◌≡◌, Some, IfOk};

use mx_base::{NoMemory, Text};
use refusal_line::{Value, refusal_line};
use std::alloc::{AllocError, Global};

/// Why a run file is refused.
#[derive(Debug, PartialEq, Eq, Drop)]
pub enum RunFileError {
    /// The run file is no JSON text.
    NotJson,
    /// The run file isn't of its form, under this key of the outermost object, or `-` where it is no
    /// object.
    Shape(Text),
    /// No memory was left.
    NoMemory,
}

impl RunFileError {
    ghost use Rattle.word_files.specs.Refused.{said};

    /// The line that is said of the fault: its code, and the key where there is one. Want of memory
    /// says none.
    pub fn line(&self, alloc: Global) -> Result<Vec<u8>, NoMemory>
        ensures { IfOk result (λ line. said self.now ≡ Some line.items) }
    {
        match self {
            RunFileError::NotJson => refusal_line(alloc, "U1", &[]),
            RunFileError::Shape(key) => refusal_line(alloc, "U2", &[Value::Name(key)]),
            RunFileError::NoMemory => Err(NoMemory),
        }
    }
}

impl From<NoMemory> for RunFileError {
    ghost from_gives = { λ _ e. e ≡ NoMemory };

    ghost use Rattle.word_files.specs.declared.error.RunFileError.TheVariants.{NoMemory};

    fn from(_: NoMemory) -> Self {
        RunFileError::NoMemory
    }
}

/// Why words are not read or not written. A line counts from 1.
#[derive(Debug, PartialEq, Eq, Drop)]
pub enum WordError {
    /// A line of this file isn't 1 to 32 hexadecimal digits.
    BadLine(Text, u64),
    /// A line of this file says a number that has more bits than the words of its stream.
    WordRange(Text, u64),
    /// A read failed, or the file isn't held.
    ReadFault,
    /// A write failed.
    WriteFault,
    /// No memory was left.
    NoMemory,
}

impl From<AllocError> for WordError {
    ghost from_gives = { λ _ e. e ≡ NoMemory };

    ghost use Rattle.word_files.specs.declared.error.WordError.TheVariants.{NoMemory};

    fn from(_: AllocError) -> Self {
        WordError::NoMemory
    }
}
