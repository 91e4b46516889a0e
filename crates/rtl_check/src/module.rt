// One module of a design, tested by all rules.
ghost use Rattle.std.specs.Prelude.{◌≡◌, ◌⊎◌, ◌<◌, map, length, IsTrue, IfOk, IfErr, OnOk};
ghost use Rattle.rtl_ir.specs.Formed.{IsFormedModule, name_of};
ghost use Rattle.rtl_ir.specs.Rules.{IsLevelled};
ghost use Rattle.rtl_check.specs.FirstFault.{IsLoopOf};
ghost use Rattle.rtl_check.specs.Paths.{ArePathsOf};
ghost use Rattle.rtl_check.specs.Checked.{IsPartFault, KeepsRules, AreTables};

use crate::drivers::{mark_drivers, no_driver, two_drivers};
use crate::names::same_name;
use crate::widths::widths_fit;
use rtl_ir::{Design, Module, RtlError};
use std::alloc::Global;

/// Tests that a module keeps all rules but that on loops.
pub fn test_parts(alloc: Global, design: &Design, module: &Module) -> Result<(), RtlError>
    requires { IsFormedModule design.now.modules module.now }
    ensures ok { OnOk result (KeepsRules design.now module.now) }
    ensures err { IfErr result (λ e. (e ≡ RtlError.NoMemory) ⊎ IsPartFault design.now module.now e) }
{
    same_name(alloc, module)?;
    let drivers = mark_drivers(alloc, design, module)?;
    two_drivers(alloc, module, &drivers)?;
    no_driver(alloc, module, &drivers)?;
    widths_fit(alloc, design, module)?;
    Ok(())
}
