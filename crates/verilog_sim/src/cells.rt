// How much there is in a design: its wires, registers and memory words.
ghost use Rattle.std.specs.Prelude.{◌≡◌, ℕ, ◌^◌, ◌-◌, ◌<◌, List, [], min, length, map, Some, slice_get, IfOk};
ghost use Rattle.rtl_ir.specs.declared.design.Instance.{Instance};
ghost use Rattle.rtl_ir.specs.Formed.{IsFormed};
ghost use Rattle.verilog_sim.specs.Start.{cells_of, cells_with, cells_after, all_cells};

use mx_base::NoMemory;
use rtl_ir::{Design, Module};
use std::alloc::Global;

/// How many wires, registers and memory words a design has with all its instances, as far as 64 bits
/// can tell.
pub(crate) fn count_cells(alloc: Global, design: &Design) -> Result<u64, NoMemory>
    requires { IsFormed design.now.modules }
    ensures { IfOk result (λ n. n ≡ min (all_cells design.now) (2 ^ 64 - 1)) }
{
    let cells = count_each(alloc, design.modules.as_slice())?;
    Ok(cells[cells.len() - 1])
}

/// How many wires, registers and memory words each module has with all its instances, as far as 64
/// bits can tell.
fn count_each(alloc: Global, modules: &[Module]) -> Result<Vec<u64>, NoMemory>
    requires { IsFormed modules.now }
    ensures { IfOk result (λ cells. cells.items ≡ map (λ n. min n (2 ^ 64 - 1)) (cells_after [] modules.now)) }
{
    let mut cells = Vec::new(alloc);
    for module in modules {
        let count = with_instances(module, cells.as_slice());
        cells.push(count)?;
    }
    Ok(cells)
}

/// The number of a module with its instances, where these are the numbers of the modules before it.
fn with_instances(module: &Module, cells: &[u64]) -> u64
    requires { (k : ℕ) (i : Instance) → slice_get module.now.instances k ≡ Some i → i.«module» < length cells.now }
    ensures { (all : List ℕ) → cells.now ≡ map (λ n. min n (2 ^ 64 - 1)) all → result ≡ min (cells_with all module.now) (2 ^ 64 - 1) }
{
    let mut count = own_cells(module);
    for instance in module.instances.as_slice() {
        count = count.saturating_add(cells[instance.module.index()]);
    }
    count
}

/// How many wires, registers and memory words a module has itself.
fn own_cells(module: &Module) -> u64
    ensures { result ≡ min (cells_of module.now) (2 ^ 64 - 1) }
{
    let mut cells = module.nets.len() as u64;
    for memory in module.mems.as_slice() {
        cells = cells.saturating_add(memory.depth as u64);
    }
    cells
}
