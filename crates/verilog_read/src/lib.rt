//! The reader of Verilog texts: from the bytes of a text to its design, or why there is none.
#![tactic(auto)]

mod builder;
mod declared;
mod error;
mod expr;
mod fault;
mod instance;
mod items;
mod ports;
mod refusal;
mod resolve;
mod steps;
mod table;

ghost use Rattle.std.specs.Prelude.{◌≡◌, ◌<◌, ◌^◌, ◌⊎◌, length, IfOk, IfErr};
ghost use Rattle.rtl_ir.specs.declared.design.Design.{Design};
ghost use Rattle.verilog_read.specs.declared.error.VerilogError.{VerilogError};
ghost use Rattle.rtl_ir.specs.Rules.{IsAccepted};
ghost use Rattle.rtl_text.specs.Text.{TextOf};
ghost use Rattle.rtl_reading.specs.Reads.{ReadsAs};
ghost use Rattle.rtl_reading.specs.Renumbered.{AreRenumbered};
ghost use Rattle.verilog_read.specs.Refused.{Refuses, IsReadAs};

pub use error::VerilogError;
use rtl_ir::Design;
use std::alloc::Global;
use steps::{can_run, design, keep_rules, tokens};
use top_ports::one_shape;

/// Reads a text of the Verilog subset: its design, with its nets numbered in the order of their
/// declarations, which keeps all rules and whose last module can be run.
pub fn read(alloc: Global, bytes: &[u8]) -> Result<Design, VerilogError>
    requires { length bytes.now < 2 ^ 32 }
    ensures read { IfOk result (λ d. IsReadAs bytes.now d) }
    ensures only { IfOk result (λ d. (other : Design) → ReadsAs bytes.now other → other ≡ d) }
    // an accepted design of which this is a text differs from the one that is read in the numbers
    // of its nets alone
    ensures same { IfOk result (λ r. (d : Design) → IsAccepted d → TextOf bytes.now d → AreRenumbered d r) }
    ensures refused { IfErr result (λ e. (e ≡ VerilogError.NoMemory) ⊎ Refuses bytes.now e) }
    ensures every { (d : Design) → IsReadAs bytes.now d → IfErr result (λ e. e ≡ VerilogError.NoMemory) }
    ensures exact { (e : VerilogError) → Refuses bytes.now e → IfOk result (λ _. ⊥) }
{
    one_shape();
    let tokens = tokens(alloc, bytes)?;
    let design = design(alloc, tokens, bytes.len() as u32)?;
    keep_rules(alloc, &design)?;
    can_run(alloc, &design)?;
    Ok(design)
}
