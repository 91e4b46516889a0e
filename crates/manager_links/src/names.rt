// Names that differ, and the numbers of names.
ghost use Rattle.std.specs.Prelude.{◌≡◌, ℕ, List, Option, None, Some, if◌then◌else◌, map, length, IfOk, IfErr, OnOk};
ghost use Rattle.std.specs.Borrow.{Bor};
ghost use Rattle.stream_graph.specs.declared.kernel.Kernel.{Kernel as OneKernel};
ghost use Rattle.manager_links.specs.Lists.{AllDiffer};
ghost use Rattle.manager_links.specs.Numbers.{number_in, is_same};
ghost use Rattle.manager_links.specs.Rules.{kernel_names, NamesDiffer};
ghost use Rattle.manager_links.specs.Naming.{texts_of, SaysAgain, SaysNameAgain};

use crate::LinkError;
use kernel_meaning::Plan;
use mx_base::{NoMemory, Text};
use std::alloc::Global;
use std::collections::{HashMap, HashSet};
use stream_graph::Kernel;

/// Tests that two kernels, two streams from the CPU and two streams to the CPU have different names.
pub(crate) fn names_differ(alloc: Global, kernels: &[Kernel], plan: &Plan) -> Result<(), LinkError>
    ensures ok { OnOk result (NamesDiffer plan.now kernels.now) }
    ensures err { IfErr result (SaysNameAgain plan.now kernels.now) }
{
    all_differ(alloc, names_of(alloc, kernels)?.as_slice())?;
    all_differ(alloc, bytes_of(alloc, plan.from_cpu.as_slice())?.as_slice())?;
    all_differ(alloc, bytes_of(alloc, plan.to_cpu.as_slice())?.as_slice())?;
    Ok(())
}

/// The text of these bytes.
pub(crate) fn text_of(alloc: Global, bytes: &[u8]) -> Result<Text, NoMemory>
    ensures { IfOk result (λ text. text ≡ bytes.now) }
{
    Ok(Text::from_vec(bytes.to_vec(alloc)?))
}

// Tests that no two of these names are one, and refuses the first that is met again.
fn all_differ(alloc: Global, names: &[&[u8]]) -> Result<(), LinkError>
    ensures ok { OnOk result (AllDiffer (texts_of names.now)) }
    ensures err { IfErr result (SaysAgain (texts_of names.now)) }
{
    let mut met = HashSet::new(alloc);
    for name in names {
        if !met.insert(*name)? {
            return Err(LinkError::SameName(text_of(alloc, name)?));
        }
    }
    Ok(())
}

// The names of kernels.
fn names_of<'a>(alloc: Global, kernels: &'a [Kernel]) -> Result<Vec<&'a [u8]>, NoMemory>
    ensures { IfOk result (λ names. texts_of names.items ≡ kernel_names kernels.entry.now) }
{
    let mut names = Vec::new(alloc);
    for kernel in kernels {
        names.push(kernel.name())?;
    }
    Ok(names)
}

// The bytes of texts.
fn bytes_of<'a>(alloc: Global, texts: &'a [Text]) -> Result<Vec<&'a [u8]>, NoMemory>
    ensures { IfOk result (λ names. texts_of names.items ≡ texts.entry.now) }
{
    let mut names = Vec::new(alloc);
    for text in texts {
        names.push(text.as_bytes())?;
    }
    Ok(names)
}

/// The numbers of names, each of a kernel, by the kernel's number, or of none.
#[derive(Drop)]
pub(crate) struct Names<'a> {
    numbers: HashMap<(Option<u32>, &'a [u8]), usize>,
}

impl<'a> Names<'a> {
    /// No name has a number. It takes no memory.
    pub fn new(alloc: Global) -> Self
        ensures { (kernel : Option ℕ) (name : List ℕ) → number_in result kernel name ≡ None }
    {
        Names {
            numbers: HashMap::new(alloc),
        }
    }

    /// Gives a name its number.
    pub fn add(
        &mut self,
        kernel: Option<u32>,
        name: &'a [u8],
        number: usize,
    ) -> Result<(), NoMemory>
        ensures { OnOk result ((other : Option ℕ) (other_name : List ℕ)
            → number_in self.new other other_name ≡
            (if is_same kernel name.entry.now other other_name then Some number
            else number_in self.old other other_name)) }
    {
        self.numbers.insert((kernel, name), number)?;
        Ok(())
    }

    /// The number of a name.
    pub fn number(&self, kernel: Option<u32>, name: &[u8]) -> Option<usize>
        ensures { result ≡ number_in self.now kernel name.now }
    {
        self.numbers.get(&(kernel, name)).copied()
    }
}
