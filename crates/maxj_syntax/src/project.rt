// Classes that are no project.
ghost use Rattle.std.specs.Prelude.{◌≡◌, ◌↔◌, List as Items, IsTrue, IfOk, count_by};
ghost use Rattle.maxj_syntax.specs.Tree.{ClassTree, ClassesAre, ProgramIs};
ghost use Rattle.maxj_syntax.specs.Faults.{IsNoProject, has_twins};
ghost use Rattle.maxj_syntax.specs.Cells.{Cell};
ghost use Rattle.maxj_syntax.specs.declared.tree.Class.{Class as Entry};

use crate::tree::{Class, Program};
use mx_base::NoMemory;
use std::alloc::Global;
use std::collections::HashSet;

/// Whether two of the classes have one name.
fn has_twins(alloc: Global, classes: &[Class]) -> Result<bool, NoMemory>
    ensures { IfOk result (λ twins. (nodes : Items Cell) (trees : Items ClassTree) → ClassesAre nodes classes.now trees → twins ≡ has_twins trees) }
{
    let mut names = HashSet::new(alloc);
    for class in classes {
        if !names.insert(class.name.as_bytes())? {
            return Ok(true);
        }
    }
    Ok(false)
}

/// How many of the classes are managers.
fn managers(classes: &[Class]) -> usize
    ensures { result ≡ count_by (λ (c : Entry). c.manager) classes.now }
{
    classes.iter().filter(|class| class.manager).count()
}

/// Whether the classes are no project: there is no kernel, or there are two managers, two classes of one
/// name, or several kernels and no manager.
pub fn is_no_project(alloc: Global, program: &Program<'_>) -> Result<bool, NoMemory>
    ensures { IfOk result (λ no. (classes : Items ClassTree) → ProgramIs program.now classes → (IsTrue no ↔ IsNoProject classes)) }
{
    let classes = program.classes.as_slice();
    let managers = managers(classes);
    let kernels = classes.len() - managers;
    if kernels == 0 || managers > 1 || kernels > 1 && managers == 0 {
        return Ok(true);
    }
    has_twins(alloc, classes)
}
