// The building run of a kernel's class.
ghost use Rattle.std.specs.Prelude.{◌≡◌, map, All, IfOk};
ghost use Rattle.maxj_syntax.specs.Tree.{ClassTree};
ghost use Rattle.maxj_syntax.specs.Ranges.{AreInRange};
ghost use Rattle.kernel_meaning.specs.Answer.{calls_of};
ghost use Rattle.kernel_meaning.specs.Constructors.{building_run, value_of_arg};
ghost use Rattle.kernel_eval.specs.Building.{Builds};
ghost use Rattle.kernel_eval.specs.Runs.{IsKernelAt, IsTyped};
ghost use Rattle.kernel_eval.specs.Sending.{HasRoomBelow};

use crate::driver::run_class;
use kernel_meaning::{Arg, EvalError, Value};
use kernel_plans::{Class, Library};
use maxj_syntax::Program;
use mx_base::{List, NoMemory};
use std::alloc::Global;
use stream_graph::Builder;

/// Runs the constructor of a kernel's class, by its number among those of the source, with these
/// arguments after the first one: the builder receives the calls of the run, in their order.
///
/// The builder has made nothing yet, and has room for each of the calls as long as fewer than 2^32
/// nodes are made. The errors are those of the run, each with its place, and then the builder has
/// received just the calls before. `NoMemory` alone says nothing of the run; it stands also where a
/// run would make 2^32 nodes. Beside the builder the run takes memory for what the program holds: at
/// most 64 calls deep, its variables, and its arrays, of at most 65,536 elements each, which
/// variables share.
pub fn eval<B: Builder>(
    alloc: Global,
    program: &Program<'_>,
    class: u32,
    args: &[Arg],
    builder: &mut B,
) -> Result<(), EvalError>
    requires kernel { (kernel : ClassTree) × IsKernelAt program.now class kernel }
    requires within { AreInRange program.now.tree }
    requires typed { All IsTyped args.now }
    requires fresh { B.made builder.old ≡ 0 }
    requires room { (kernel : ClassTree) → IsKernelAt program.now class kernel
        → HasRoomBelow B.made B.has_room B.receives builder.old
        (calls_of (building_run kernel (map value_of_arg args.now))) }
    ensures { (kernel : ClassTree) → IsKernelAt program.now class kernel
        → Builds B.receives builder.old (building_run kernel (map value_of_arg args.now)) result
        builder.new }
{
    let node = program.classes.at(class as usize).node;
    let class = Class::new(alloc, &program.tree, node, Library::OfKernel)?;
    let values = values_of(alloc, args)?;
    run_class(alloc, &class, values, builder)
}

// The values of arguments.
fn values_of(alloc: Global, args: &[Arg]) -> Result<List<Value>, NoMemory>
    ensures { IfOk result (λ values. values ≡ map value_of_arg args.now) }
{
    let mut values = List::new(alloc);
    for arg in args {
        values.push(match *arg {
            Arg::Int(n) => Value::Int(n),
            Arg::Flag(b) => Value::Flag(b),
            Arg::Stream(t) => Value::Type(t),
        })?;
    }
    Ok(values)
}
