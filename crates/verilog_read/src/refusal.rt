// The line that a text says that isn't read.
ghost use Rattle.std.specs.Prelude.{◌≡◌, Some, IfOk};
ghost use Rattle.verilog_read.specs.Lines.{said};

use crate::error::VerilogError;
use mx_base::NoMemory;
use refusal_line::{Value, refusal_line};
use std::alloc::Global;

impl VerilogError {
    /// The line that is said of the fault: its code, and its place or what is named. Want of memory
    /// says none.
    pub fn line(&self, alloc: Global) -> Result<Vec<u8>, NoMemory>
        ensures { IfOk result (λ line. said self.now ≡ Some line.items) }
    {
        match self {
            VerilogError::NoToken(at) => refusal_line(alloc, "V1", &[Value::Number(*at as u64)]),
            VerilogError::Syntax(at) => refusal_line(alloc, "V2", &[Value::Number(*at as u64)]),
            VerilogError::Rtl(error) => rtl_check::line_of(alloc, error),
            VerilogError::PortShape(name) => refusal_line(alloc, "V4", &[Value::Name(name)]),
            VerilogError::NoMemory => Err(NoMemory),
        }
    }
}
