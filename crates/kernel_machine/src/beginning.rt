// How a run begins.
ghost use Rattle.std.specs.Prelude.{◌≡◌, ◌∷◌, List, IfOk, IfErr};
ghost use Rattle.kernel_rows.specs.Fit.{AreFit};
ghost use Rattle.kernel_rows.specs.Kept.{IsKept};
ghost use Rattle.kernel_meaning.specs.Constructors as Constructors;
ghost use Rattle.kernel_meaning.specs.Constructors.{first_argument, run_of, ctor_of, step_limit};
ghost use Rattle.kernel_meaning.specs.declared.value.Value.{Value as Argument};
ghost use Rattle.kernel_plans.specs.Classes.{members, library_of};
ghost use Rattle.kernel_machine.specs.Going.{Starts};
ghost use Rattle.kernel_machine.specs.Fit.{IsFitMachine};

use crate::machine::{Machine, Now};
use crate::task::Task;
use kernel_meaning::{Bindings, EvalError, Plan, Stack, State, Value};
use kernel_plans::{Class, constructor, fields_ahead};
use mx_base::List as Items;
use std::alloc::Global;

// How many steps a run may take.
const STEPS: u32 = 1_000_000;

impl Machine {
    /// The machine before the first step of the constructor's run, with these arguments, of which
    /// the first is the parameters of a kernel, or the engine's of a manager.
    ///
    /// Its errors are `NoMemory`; `WrongKind` where there is no constructor, and of an argument;
    /// `UnknownName` where a type is none or the number of arguments is wrong; and `NameTwice`.
    #[tactic(auto, unfolding(crate::specs::Going::go, crate::specs::Going::back_of))]
    pub fn begin(alloc: Global, class: &Class<'_>, values: Items<Value>) -> Result<Self, EvalError>
        requires { AreFit values }
        ensures begins { (args : List Argument)
            → values ≡ first_argument (library_of class.now.library) ∷ args
            → Starts class.now (run_of (library_of class.now.library) (members class.now) args
            step_limit (ctor_of (members class.now))) result }
        ensures fit { IfOk result (λ machine. IsFitMachine class.now machine) }
    {
        let entered = match constructor(alloc, class, values) {
            Ok(entered) => entered,
            Err(error) => return Err(error),
        };
        let mut tasks = Stack::new(alloc);
        tasks.push(Task::Fields {
            place: 0,
            before: 0,
            body: entered.block,
            variables: entered.variables,
        })?;
        Ok(Machine {
            now: Now::Give(Value::Nothing),
            tasks,
            callers: Stack::new(alloc),
            wanted: None,
            state: start(alloc, class)?,
        })
    }
}

// The state before the first step.
fn start(alloc: Global, class: &Class<'_>) -> Result<State, EvalError>
    ensures is { IfOk result (λ state.
        state ≡ Constructors.start (library_of class.now.library) (members class.now) step_limit) }
    ensures err { IfErr result (λ e. e ≡ EvalError.NoMemory) }
    ensures kept { IfOk result IsKept }
{
    Ok(State {
        variables: Bindings::new(alloc),
        fields: fields_ahead(alloc, class)?,
        arrays: Items::new(alloc),
        digits: Stack::new(alloc),
        modes: Stack::new(alloc),
        left: STEPS,
        made: 0,
        plan: Plan {
            manager: class.is_manager(),
            kernels: Items::new(alloc),
            from_cpu: Items::new(alloc),
            to_cpu: Items::new(alloc),
            joins: Items::new(alloc),
        },
    })
}
