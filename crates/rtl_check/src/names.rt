// Names that are declared again.
ghost use Rattle.std.specs.Prelude.{◌≡◌, ◌<◌, ◌≤◌, ℕ, map, length, IfOk, IfErr, OnOk, IfSome, IfNone};
ghost use Rattle.rtl_ir.specs.Faults.{IsFirst, IsAgain};
ghost use Rattle.rtl_check.specs.FirstFault.{IsNamedAgain};
ghost use Rattle.rtl_ir.specs.Rules.{names_of, AllDiffer};
ghost use Rattle.rtl_check.specs.Checked.{IsNoMemoryOr, IsAgainIn};

use mx_base::{NoMemory, Text};
use rtl_ir::{Design, Module, RtlError};
use std::alloc::Global;
use std::collections::HashSet;

/// The first place of these at which a name stands that stood before it.
pub fn first_again(alloc: Global, names: &[&[u8]]) -> Result<Option<usize>, NoMemory>
    ensures found { IfOk result (λ found. IfSome found (IsFirst (IsAgain (map (λ name. name.now) names.now)))) }
    ensures within { IfOk result (λ found. IfSome found (λ place. place < length names.now)) }
    ensures none { IfOk result (λ found. IfNone found (AllDiffer (map (λ name. name.now) names.now))) }
{
    let mut seen = HashSet::new(alloc);
    for place in 0..names.len() {
        if !seen.insert(names[place])? {
            return Ok(Some(place));
        }
    }
    Ok(None)
}

/// The names that a module declares: of its nets, then its memories, then its instances.
pub fn declared(alloc: Global, module: &Module) -> Result<Vec<&[u8]>, NoMemory>
    ensures { IfOk result (λ names. map (λ name. name.now) names.items ≡ names_of module.now) }
{
    let mut names = Vec::new(alloc);
    for net in module.nets.as_slice() {
        names.push(net.name.as_bytes())?;
    }
    for mem in module.mems.as_slice() {
        names.push(mem.name.as_bytes())?;
    }
    for instance in module.instances.as_slice() {
        names.push(instance.name.as_bytes())?;
    }
    Ok(names)
}

/// Tests that the names that a module declares differ.
pub fn same_name(alloc: Global, module: &Module) -> Result<(), RtlError>
    ensures ok { OnOk result (AllDiffer (names_of module.now)) }
    ensures err { IfErr result (IsNoMemoryOr RtlError.SameName (IsAgainIn module.now)) }
{
    let names = declared(alloc, module)?;
    match first_again(alloc, names.as_slice())? {
        Some(place) => {
            let name = Text::from_vec(names[place].to_vec(alloc)?);
            Err(RtlError::SameName(name))
        }
        None => Ok(()),
    }
}

/// The number of the first module that has the name of an earlier one, and the number of modules
/// where there is none.
pub fn module_again(alloc: Global, design: &Design) -> Result<usize, NoMemory>
    ensures again { IfOk result (λ number. number < length design.now.modules → IsNamedAgain design.now number) }
    ensures earlier { IfOk result (λ number. (k : ℕ) → k < number → IsNamedAgain design.now k → ⊥) }
    ensures within { IfOk result (λ number. number ≤ length design.now.modules) }
{
    let mut names = Vec::new(alloc);
    for module in design.modules.as_slice() {
        names.push(module.name.as_bytes())?;
    }
    match first_again(alloc, names.as_slice())? {
        Some(number) => Ok(number),
        None => Ok(design.modules.len()),
    }
}
