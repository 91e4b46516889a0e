// The combinational loops of a module.
ghost use Rattle.std.specs.Prelude.{◌≡◌, ◌<◌, ◌⊎◌, ℕ, List, map, length, slice_index, IsTrue, IfOk, IfErr, OnOk};
ghost use Rattle.rtl_ir.specs.declared.design.Design.{Design};
ghost use Rattle.rtl_ir.specs.Formed.{name_of};
ghost use Rattle.rtl_ir.specs.Rules.{IsLevelled};
ghost use Rattle.rtl_check.specs.FirstFault.{IsLoopOf};
ghost use Rattle.rtl_check.specs.Paths.{IsInRange, ArePathsOf};
ghost use Rattle.rtl_check.specs.Checked.{IsPart};

use crate::paths::{PathTable, feeding, port_paths};
use crate::widths::net_name;
use digraph::{Found, rank};
use mx_base::{List as Items, NoMemory, Text};
use rtl_ir::{Module, NetId, RtlError};
use std::alloc::Global;

/// The names of these nets.
fn net_names(alloc: Global, module: &Module, nets: &[u32]) -> Result<Items<Text>, NoMemory>
    requires { (i : ℕ) → i < length nets.now → slice_index nets.now i < length module.now.nets }
    ensures { IfOk result (λ names. names ≡ map (name_of module.now) nets.now) }
{
    let mut names = Items::new(alloc);
    for place in 0..nets.len() {
        let name = net_name(module, NetId::new(nets[place])).copy(alloc)?;
        names.push(name)?;
    }
    Ok(names)
}

/// The paths of a module where they are wanted, and the names of the nets of a loop where there is
/// one. `tables` has the paths of each module of which this one has an instance.
pub fn paths_or_loop(
    alloc: Global,
    module: &Module,
    tables: &[PathTable],
    wanted: bool,
) -> Result<PathTable, RtlError>
    requires { IsInRange module.now tables.now }
    ensures levelled { OnOk result ((d : Design) → IsPart module.now tables.now d → IsLevelled d module.now) }
    ensures paths { IfOk result (λ paths. IsTrue wanted → (d : Design) → IsPart module.now tables.now d
        → ArePathsOf d module.now paths) }
    ensures err { IfErr result (λ e. (e ≡ RtlError.NoMemory) ⊎ ((names : List (List ℕ)) × (e ≡ RtlError.CombLoop names)
        × ((d : Design) → IsPart module.now tables.now d → IsLoopOf d module.now names))) }
{
    let graph = feeding(alloc, module, tables)?;
    match rank(alloc, graph.as_slice())? {
        Found::Walk(walk) => {
            let names = net_names(alloc, module, walk.as_slice())?;
            Err(RtlError::CombLoop(names))
        }
        Found::Ranks(_) => {
            if !wanted {
                return Ok(Items::new(alloc));
            }
            let paths = port_paths(alloc, module, graph.as_slice())?;
            Ok(paths)
        }
    }
}
