// A building run whose calls a builder receives.
ghost use Rattle.std.specs.Prelude.{◌≡◌, []};
ghost use Rattle.kernel_meaning.specs.Answer.{calls_of};
ghost use Rattle.kernel_meaning.specs.Plans.{OfKernel};
ghost use Rattle.kernel_meaning.specs.Sound.{AreSound};
ghost use Rattle.kernel_plans.specs.Classes.{library_of};
ghost use Rattle.kernel_rows.specs.Fit.{AreFit};
ghost use Rattle.maxj_syntax.specs.Ranges.{AreInRange};
ghost use Rattle.kernel_eval.specs.Building.{Builds};
ghost use Rattle.kernel_eval.specs.Runs.{run_in};
ghost use Rattle.kernel_eval.specs.Sending.{HasRoomBelow};

use crate::beginning::begin;
use crate::sending::send_all;
use kernel_machine::Event;
use kernel_meaning::{EvalError, Value};
use kernel_plans::Class;
use mx_base::List;
use std::alloc::Global;
use stream_graph::Builder;

// Runs the constructor of a kernel's class with these arguments after the first one: the builder receives
// the calls of the run, in their order.
pub(crate) fn run_class<B: Builder>(
    alloc: Global,
    class: &Class<'_>,
    args: List<Value>,
    builder: &mut B,
) -> Result<(), EvalError>
    requires kernel { library_of class.now.library ≡ OfKernel }
    requires within { AreInRange class.now.cells }
    requires fit { AreFit args }
    requires sound { AreSound [] args }
    requires fresh { B.made builder.old ≡ 0 }
    requires room { HasRoomBelow B.made B.has_room B.receives builder.old (calls_of (run_in class.now args)) }
    ensures { Builds B.receives builder.old (run_in class.now args) result builder.new }
{
    let mut machine = begin(alloc, class, args)?;
    let mut vars: Vec<B::Var> = Vec::new(alloc);
    loop {
        match machine.step(alloc, class)? {
            Event::On => {}
            Event::Makes(calls) => send_all(alloc, builder, &mut vars, &calls)?,
            Event::Ended => return Ok(()),
        }
    }
}
