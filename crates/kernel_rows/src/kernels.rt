// The kernels that a manager adds.
ghost use Rattle.std.specs.Prelude.{◌≡◌, OnErr};
ghost use Rattle.kernel_meaning.specs.ManagerRows as Rows;
ghost use Rattle.kernel_rows.specs.Given.{IsGiven};
ghost use Rattle.kernel_rows.specs.Kept.{IsKept, ValueKeeps};
ghost use Rattle.kernel_rows.specs.KernelArgs.{AreArgs, arg_of};

use kernel_meaning::{Arg, EvalError, Made, State, Value};
use mx_base::{List, Text};
use std::alloc::Global;

/// `new Class(.., name, values)`: a kernel of a class is added, with a name and the arguments for
/// its further parameters.
///
/// Its errors are `NoMemory`, and `WrongKind` of a value that is no number, boolean or type.
#[tactic(auto, using(crate::proofs::RowsKept::added_keeps))]
pub fn kernel_added(
    alloc: Global,
    at: u32,
    name: &Text,
    class: u32,
    values: &[Value],
    state: &mut State,
) -> Result<Value, EvalError>
    requires { IsKept state.old }
    ensures done { IsGiven state.new
        (Rows.kernel_added at name.now class values.now state.old) result }
    ensures keeps { ValueKeeps state.old state.new result }
    ensures err { OnErr result (state.new ≡ state.old) }
{
    let args = args_of(alloc, at, values)?;
    let Ok(number) = u32::try_from(state.plan.kernels.len()) else {
        return Err(EvalError::NoMemory);
    };
    let name = name.copy(alloc)?;
    state.plan.kernels.push(Made { name, class, args })?;
    Ok(Value::Block(number))
}

// The arguments that these values are.
fn args_of(alloc: Global, at: u32, values: &[Value]) -> Result<List<Arg>, EvalError>
    ensures { AreArgs at (Rows.args_of values.now) result }
{
    let mut args = List::new(alloc);
    for value in values {
        match arg_of(value) {
            Some(arg) => args.push(arg)?,
            None => return Err(EvalError::WrongKind(at)),
        }
    }
    Ok(args)
}

// A number, a boolean or a type is an argument.
fn arg_of(value: &Value) -> Option<Arg>
    ensures { result ≡ arg_of value.now }
{
    match value {
        Value::Int(n) => Some(Arg::Int(*n)),
        Value::Flag(flag) => Some(Arg::Flag(*flag)),
        Value::Type(of) => Some(Arg::Stream(*of)),
        _ => None,
    }
}
