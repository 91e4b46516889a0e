// The line that a run says that is refused.
ghost use Rattle.std.specs.Prelude.{◌≡◌, Some, IfOk};
ghost use Rattle.simulation.specs.Lines.{said};

use crate::stop::Stop;
use mx_base::NoMemory;
use refusal_line::{Value, refusal_line};
use std::alloc::Global;

impl Stop {
    /// The line that is said of a refusal: its code, and the number of cells, or the file and the
    /// number of its line. What is no refusal says none.
    pub fn line(&self, alloc: Global) -> Result<Vec<u8>, NoMemory>
        ensures { IfOk result (λ line. said self.now ≡ Some line.items) }
    {
        match self {
            Stop::TooManyCells(cells) => refusal_line(alloc, "V5", &[Value::Number(*cells)]),
            Stop::BadLine(file, line) => {
                refusal_line(alloc, "U3", &[Value::Name(file), Value::Number(*line)])
            }
            Stop::WordRange(file, line) => {
                refusal_line(alloc, "U4", &[Value::Name(file), Value::Number(*line)])
            }
            Stop::ReadFault | Stop::WriteFault | Stop::NoMemory => Err(NoMemory),
        }
    }
}
