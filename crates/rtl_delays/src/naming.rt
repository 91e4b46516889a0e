// Names of registers and memories by their numbers.
ghost use Rattle.std.specs.Prelude.{◌≡◌, IfOk};
ghost use Rattle.rtl_delays.specs.Names.{register_name, memory_name};

use mx_base::{NoMemory, Text};
use std::alloc::Global;

// The name of the register that is net number `number`.
pub(crate) fn register_name(alloc: Global, number: usize) -> Result<Text, NoMemory>
    ensures { IfOk result (λ t. t ≡ register_name number) }
{
    let name = format!(in alloc; "r{number}")?;
    Ok(Text::from_vec(name.into_bytes()))
}

// The name of memory number `number`.
pub(crate) fn memory_name(alloc: Global, number: usize) -> Result<Text, NoMemory>
    ensures { IfOk result (λ t. t ≡ memory_name number) }
{
    let name = format!(in alloc; "m{number}")?;
    Ok(Text::from_vec(name.into_bytes()))
}
