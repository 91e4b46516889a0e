// Which modules of a design others have instances of.
ghost use Rattle.std.specs.Prelude.{◌≡◌, ◌<◌, ◌≤◌, ℕ, true, length, slice_get, Some, vec_len, IfOk};
ghost use Rattle.rtl_ir.specs.declared.design.Instance.{Instance};
ghost use Rattle.rtl_ir.specs.declared.design.Module.{Module};
ghost use Rattle.rtl_ir.specs.Formed.{IsFormed};

use mx_base::NoMemory;
use rtl_ir::{Design, Module};
use std::alloc::Global;

/// Marks the modules that a module has instances of.
fn mark_parts(module: &Module, marks: &mut [bool])
    requires { (k : ℕ) (i : Instance) → slice_get module.now.instances k ≡ Some i → i.module < length marks.old }
    ensures kept { (n : ℕ) → slice_get marks.old n ≡ Some true → slice_get marks.new n ≡ Some true }
    ensures marked { (k : ℕ) (i : Instance) → slice_get module.now.instances k ≡ Some i
        → slice_get marks.new i.module ≡ Some true }
{
    for place in 0..module.instances.len() {
        marks[module.instances.at(place).module.index()] = true;
    }
}

/// Whether some module has an instance of each one, by number.
pub fn instanced(alloc: Global, design: &Design) -> Result<Vec<bool>, NoMemory>
    requires { IsFormed design.now.modules }
    ensures size { IfOk result (λ marks. vec_len marks ≡ length design.now.modules) }
    ensures marked { IfOk result (λ marks. (number k : ℕ) (m : Module) (i : Instance)
        → slice_get design.now.modules number ≡ Some m → slice_get m.instances k ≡ Some i
        → slice_get marks.items i.module ≡ Some true) }
{
    let mut marks = vec![in alloc; false; design.modules.len()]?;
    for number in 0..design.modules.len() {
        mark_parts(design.modules.at(number), marks.as_mut_slice());
    }
    Ok(marks)
}
