// Why a table is refused.
ghost use Rattle.std.specs.Prelude.{◌≡◌, ◌⊎◌, Some, IfOk};

use crate::operation_name;
use mx_base::{NoMemory, Text};
use mx_bits::Op;
use refusal_line::{Value, refusal_line};
use std::alloc::Global;

/// Why a latency table is refused.
#[derive(Debug, PartialEq, Eq, Drop)]
pub enum TableError {
    /// The table is no JSON text.
    NotJson,
    /// The table is no object, and the text is `-`; or this key, the first such in byte order, names
    /// no operation of tables, or its value is no array of pairs of whole numbers.
    Shape(Text),
    /// In the rows of this operation, the first such in byte order of names, a width isn't 1 to 128
    /// and above the one before it, or a latency isn't 0 to 64.
    Range(Op),
    /// No memory was left.
    NoMemory,
}

impl TableError {
    ghost use Rattle.latency_table.specs.Refused.{said};

    /// The line that is said of the fault: its code, and the key or the operation's name where there
    /// is one. Want of memory says none.
    pub fn line(&self, alloc: Global) -> Result<Vec<u8>, NoMemory>
        ensures { IfOk result (λ line. said self.now ≡ Some line.items) }
    {
        match self {
            TableError::NotJson => refusal_line(alloc, "T1", &[]),
            TableError::Shape(key) => refusal_line(alloc, "T2", &[Value::Name(key)]),
            TableError::Range(op) => {
                let name = Text::from_vec(operation_name(*op).as_bytes().to_vec(alloc)?);
                refusal_line(alloc, "T3", &[Value::Name(&name)])
            }
            TableError::NoMemory => Err(NoMemory),
        }
    }
}

impl From<NoMemory> for TableError {
    ghost from_gives = { λ _ e. e ≡ NoMemory };

    ghost use Rattle.latency_table.specs.declared.error.TableError.TheVariants.{NoMemory};

    fn from(_: NoMemory) -> Self {
        TableError::NoMemory
    }
}
