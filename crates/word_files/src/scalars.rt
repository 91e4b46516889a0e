// The scalars of a design by their names in a run file.
ghost use Rattle.std.specs.Prelude.{◌≡◌, ◌++◌, IfOk, codes};
ghost use Rattle.word_files.specs.RunFiles.{scalar_entry, scalar_entries};

use mx_base::{List, NoMemory, Text};
use rtl_ir::{Interface, ScalarPort};
use std::alloc::Global;

/// The scalars of a design in the order of their ports, each with its name `KERNEL.NAME` in a run
/// file and its width in bits.
pub fn scalar_names(alloc: Global, ports: &Interface) -> Result<List<(Text, u8)>, NoMemory>
    ensures { IfOk result (λ scalars. scalars ≡ scalar_entries ports.now) }
{
    let mut scalars = List::new(alloc);
    for scalar in ports.scalars.as_slice() {
        scalars.push((scalar_name(alloc, scalar)?, scalar.width))?;
    }
    Ok(scalars)
}

fn scalar_name(alloc: Global, scalar: &ScalarPort) -> Result<Text, NoMemory>
    ensures { IfOk result (λ name. name ≡ scalar.now.kernel ++ codes "." ++ scalar.now.name) }
{
    let mut name = scalar.kernel.copy(alloc)?;
    name.append(b".")?;
    name.append(scalar.name.as_bytes())?;
    Ok(name)
}
