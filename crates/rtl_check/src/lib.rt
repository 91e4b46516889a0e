//! The test of a design by its rules: an accepted design, or its first fault.
#![tactic(auto)]

mod drivers;
mod inputs;
mod loops;
mod many_inputs;
mod module;
mod names;
mod parts;
mod paths;
mod refusal;
mod widths;

ghost use Rattle.std.specs.Prelude.{◌≡◌, ◌⊎◌, ℕ, IfErr, OnOk};
ghost use Rattle.rtl_ir.specs.Formed.{IsFormed};
ghost use Rattle.rtl_ir.specs.Rules.{IsAccepted};
ghost use Rattle.rtl_check.specs.FirstFault.{IsFirstFault};

use loops::paths_or_loop;
use module::test_parts;
use mx_base::List;
use names::module_again;
use parts::instanced;
pub use refusal::line_of;
use rtl_ir::{Design, RtlError};
use std::alloc::Global;

/// Tests that a design keeps the rules: names differ, each net and memory has the drivers that it
/// must have (IEEE 1364-2005, 6.1 and 9.2.2), widths agree, and no net has a part in its own value
/// within an edge.
///
/// The error is the first fault of the first module that has one, by kinds in the order
/// `SameName`, `TwoDrivers`, `NoDriver`, `Width`, `CombLoop`, and within a kind the first name. It
/// takes time and memory in proportion to the design, beside what a module costs that others have
/// instances of: a search for each of its outputs, and some bits for each pair of an input and an
/// output.
pub fn check(alloc: Global, design: &Design) -> Result<(), RtlError>
    requires { IsFormed design.now.modules }
    ensures ok { OnOk result (IsAccepted design.now) }
    ensures err { IfErr result (λ e. (e ≡ RtlError.NoMemory) ⊎ IsFirstFault design.now e) }
    ensures accepted { IsAccepted design.now → IfErr result (λ e. e ≡ RtlError.NoMemory) }
{
    let again = module_again(alloc, design)?;
    let wanted = instanced(alloc, design)?;
    let mut tables = List::new(alloc);
    for number in 0..design.modules.len() {
        let module = design.modules.at(number);
        if number == again {
            let name = module.name.copy(alloc)?;
            return Err(RtlError::SameName(name));
        }
        test_parts(alloc, design, module)?;
        let paths = paths_or_loop(alloc, module, tables.as_slice(), wanted[number])?;
        tables.push(paths)?;
    }
    Ok(())
}
