// Why a text is not read.
ghost use Rattle.std.specs.Prelude.{◌≡◌};

use mx_base::{NoMemory, Text};
use rtl_ir::RtlError;
use std::alloc::AllocError;

/// Why a text is not read. A place counts bytes from 0.
#[derive(Drop)]
pub enum VerilogError {
    /// The first place where neither a token nor white space nor a comment begins.
    NoToken(u32),
    /// The place of the first token that no text has after the tokens before it, or the length of
    /// the text.
    Syntax(u32),
    /// The rule that the design breaks: a name that isn't declared before it is used, or the first
    /// fault of the first module that has one.
    Rtl(RtlError),
    /// The first port of the last module that is none of a module that can be run.
    PortShape(Text),
    /// No memory was left.
    NoMemory,
}

impl From<NoMemory> for VerilogError {
    ghost from_gives = { λ _ e. e ≡ NoMemory };

    ghost use Rattle.verilog_read.specs.declared.error.VerilogError.TheVariants.{NoMemory};

    fn from(_: NoMemory) -> Self {
        VerilogError::NoMemory
    }
}

impl From<AllocError> for VerilogError {
    ghost from_gives = { λ _ e. e ≡ NoMemory };

    ghost use Rattle.verilog_read.specs.declared.error.VerilogError.TheVariants.{NoMemory};

    fn from(_: AllocError) -> Self {
        VerilogError::NoMemory
    }
}
