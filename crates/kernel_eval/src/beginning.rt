// The machine of a building run before its first step.
ghost use Rattle.std.specs.Prelude.{◌≡◌, IfOk};
ghost use Rattle.kernel_meaning.specs.Constructors.{first_argument};
ghost use Rattle.kernel_rows.specs.Fit.{AreFit};
ghost use Rattle.kernel_plans.specs.Classes.{library_of};
ghost use Rattle.kernel_machine.specs.Going.{Starts};
ghost use Rattle.kernel_machine.specs.Fit.{IsFitMachine};
ghost use Rattle.kernel_eval.specs.Runs.{run_in};

use kernel_machine::Machine;
use kernel_meaning::{EvalError, Value};
use kernel_plans::Class;
use mx_base::List;
use std::alloc::Global;

// The first argument of the class's constructor.
fn first_value(class: &Class<'_>) -> Value
    ensures { result ≡ first_argument (library_of class.now.library) }
{
    if class.is_manager() {
        Value::Engine
    } else {
        Value::Parameters
    }
}

/// The machine of the run of a class with these arguments after the first one.
pub fn begin(alloc: Global, class: &Class<'_>, args: List<Value>) -> Result<Machine, EvalError>
    requires { AreFit args }
    ensures begins { Starts class.now (run_in class.now args) result }
    ensures fit { IfOk result (λ machine. IsFitMachine class.now machine) }
{
    let mut values = args.into_vec();
    if values.insert(0, first_value(class)).is_err() {
        return Err(EvalError::NoMemory);
    }
    Machine::begin(alloc, class, List::from_vec(values))
}
