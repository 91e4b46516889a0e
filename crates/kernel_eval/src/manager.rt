// What a source builds: by its manager, or the one kernel of a source without one.
ghost use Rattle.std.specs.Prelude.{◌≡◌, [], List, None, find};
ghost use Rattle.std.specs.Option.{option_map};
ghost use Rattle.maxj_syntax.specs.declared.tree.Class.{Class as OneClass};
ghost use Rattle.maxj_syntax.specs.Tree.{ClassTree, ClassIs, ClassesAre, ProgramIs};
ghost use Rattle.maxj_syntax.specs.Ranges.{AreInRange};
ghost use Rattle.kernel_meaning.specs.Managers.{manager_of, manager_run, source_plan, one_kernel, alone_from};
ghost use Rattle.kernel_plans.specs.Tables.{number_in};
ghost use Rattle.kernel_meaning.specs.Plans.{OfManager};
ghost use Rattle.kernel_eval.specs.Building.{Plans, IsAnswer};
ghost use Rattle.kernel_eval.specs.Runs.{run_in, run_with};

use crate::beginning::begin;
use kernel_calls::is_port_name;
use kernel_machine::Event;
use kernel_meaning::{EvalError, Made, Plan};
use kernel_plans::{Class as RunClass, KernelClasses, Library, branch_at};
use maxj_syntax::{Class, NodeId, Program, SyntaxTree};
use mx_base::{List, Text};
use std::alloc::Global;

/// What a source builds: the constructor of its manager runs; without a manager it is the one kernel,
/// under the name of its class and without arguments.
///
/// The errors are those of the manager's run, each with its place, and `BadPortName` at the first
/// token of the class where its name is none of a kernel. `NoMemory` alone says nothing.
pub fn eval_manager(alloc: Global, program: &Program<'_>) -> Result<Plan, EvalError>
    requires { AreInRange program.now.tree }
    ensures { (classes : List ClassTree) → ProgramIs program.now classes
        → IsAnswer (source_plan classes) result }
{
    let classes = program.classes.as_slice();
    match manager_in(classes) {
        Some(manager) => plan_by(alloc, &program.tree, classes, manager),
        None => plan_alone(alloc, &program.tree, classes),
    }
}

// The manager among classes.
fn manager_in(classes: &[Class]) -> Option<&Class>
    ensures { option_map (λ class. class.now) result ≡ find (λ (c : OneClass). c.manager) classes.now }
{
    classes.iter().find(|class| class.manager)
}

// What the manager of these classes builds.
fn plan_by(
    alloc: Global,
    tree: &SyntaxTree<'_>,
    classes: &[Class],
    manager: &Class,
) -> Result<Plan, EvalError>
    requires { AreInRange tree.now }
    ensures { (trees : List ClassTree) (class : ClassTree) → ClassesAre tree.now classes.now trees
        → ClassIs tree.now manager.now class → Plans (manager_run trees class) result }
{
    let kernels = KernelClasses::new(alloc, classes)?;
    plan_with(alloc, tree, &kernels, manager.node)
}

// What the manager of this node builds, which may add these kernels.
fn plan_with(
    alloc: Global,
    tree: &SyntaxTree<'_>,
    kernels: &KernelClasses<'_>,
    node: NodeId,
) -> Result<Plan, EvalError>
    requires { AreInRange tree.now }
    ensures { Plans (run_with tree.now node (OfManager (number_in kernels.now)) []) result }
{
    let class = RunClass::new(alloc, tree, node, Library::OfManager(kernels))?;
    run_manager(alloc, &class)
}

// Runs the constructor of a manager's class, and answers what it builds.
#[tactic(auto, using(crate::proofs::Way::plan_with))]
fn run_manager(alloc: Global, class: &RunClass<'_>) -> Result<Plan, EvalError>
    requires { AreInRange class.now.cells }
    ensures { Plans (run_in class.now []) result }
{
    let mut machine = begin(alloc, class, List::new(alloc))?;
    loop {
        match machine.step(alloc, class)? {
            Event::On => {}
            Event::Makes(_calls) => {}
            Event::Ended => {
                let state = machine.state;
                return Ok(state.plan);
            }
        }
    }
}

// What classes without a manager build: the first of them.
fn plan_alone(alloc: Global, tree: &SyntaxTree<'_>, classes: &[Class]) -> Result<Plan, EvalError>
    ensures { (trees : List ClassTree) → ClassesAre tree.now classes.now trees
        → manager_of trees ≡ None → IsAnswer (alone_from 0 trees) result }
{
    match classes.first() {
        Some(class) => plan_of_one(alloc, tree, class),
        None => Err(EvalError::UnknownName(0)),
    }
}

// What is built of one kernel's class, the first.
fn plan_of_one(alloc: Global, tree: &SyntaxTree<'_>, class: &Class) -> Result<Plan, EvalError>
    ensures { (kernel : ClassTree) → ClassIs tree.now class.now kernel
        → IsAnswer (one_kernel 0 kernel) result }
{
    let name = class.name.as_bytes();
    if !is_port_name(name) {
        return Err(EvalError::BadPortName(branch_at(tree, Some(class.node)).span.from));
    }
    let mut kernels = List::new(alloc);
    kernels.push(Made {
        name: Text::from_vec(name.to_vec(alloc)?),
        class: 0,
        args: List::new(alloc),
    })?;
    Ok(Plan {
        manager: false,
        kernels,
        from_cpu: List::new(alloc),
        to_cpu: List::new(alloc),
        joins: List::new(alloc),
    })
}
