// The classes of a source's kernels by their names.
ghost use Rattle.std.specs.Prelude.{◌≡◌, List, IfOk};
ghost use Rattle.maxj_syntax.specs.Cells.{Cell};
ghost use Rattle.maxj_syntax.specs.Tree.{ClassTree, ClassesAre};
ghost use Rattle.kernel_meaning.specs.Managers.{kernel_number};
ghost use Rattle.kernel_plans.specs.Tables.{number_in};

use indexmap::IndexMap;
use maxj_syntax::Class;
use mx_base::NoMemory;
use std::alloc::Global;
use std::marker::Model;

/// The numbers of the classes of kernels by their names, which are lent. Of two classes of one
/// name the first counts. A contract sees the names with their numbers.
#[derive(Drop)]
pub struct KernelClasses<'a> {
    numbers: IndexMap<&'a [u8], u32>,
}

impl<'a> Model for KernelClasses<'a> {
    ghost use Rattle.std.specs.Prelude.{ℕ, List as Items};
    ghost use Rattle.kernel_plans.specs.Tables.{entries_of};

    ghost Value = { Items (Items ℕ × ℕ) };

    ghost view = { λ k. entries_of k.numbers };
}

impl<'a> KernelClasses<'a> {
    /// The kernels among the classes of a source, each with its number among all of them.
    pub fn new(alloc: Global, classes: &'a [Class]) -> Result<Self, NoMemory>
        ensures { IfOk result (λ kernels. (cells : List Cell) (trees : List ClassTree)
            → ClassesAre cells classes.now trees → number_in kernels ≡ kernel_number trees) }
    {
        let mut numbers = IndexMap::new(alloc);
        for place in (0..classes.len()).rev() {
            let class = &classes[place];
            if !class.manager {
                if place > u32::MAX as usize {
                    return Err(NoMemory);
                }
                numbers.insert(class.name.as_bytes(), place as u32)?;
            }
        }
        Ok(KernelClasses { numbers })
    }

    /// The number of the class of the kernel with this name.
    pub fn number(&self, name: &[u8]) -> Option<u32>
        ensures { result ≡ number_in self.now name.now }
    {
        self.numbers.get(name).copied()
    }
}
