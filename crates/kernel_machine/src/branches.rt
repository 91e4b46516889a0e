// `if`.
ghost use Rattle.std.specs.Prelude.{◌≡◌, ◌+◌, OnOk};
ghost use Rattle.kernel_meaning.specs.Answer.{chosen};
ghost use Rattle.kernel_meaning.specs.Run.{branches, exec};
ghost use Rattle.kernel_machine.specs.Left.{parts, from_place};
ghost use Rattle.kernel_machine.specs.Answers.{IsCondition};
ghost use Rattle.kernel_plans.specs.Trees.{tree_of};
ghost use Rattle.kernel_machine.specs.Going.{Leads, standing, rest, after, leaving};
ghost use Rattle.kernel_machine.specs.Falls.{CostsBelow, idle};
ghost use Rattle.kernel_machine.specs.Fit.{IsFitMachine};

use crate::machine::{Event, Machine, Now};
use crate::parts::part;
use crate::task::{Part, Task};
use kernel_meaning::{EvalError, Value};
use kernel_plans::{Class, branch_at};

impl Machine {
    // Goes on with the condition of this place, or with the `else`, or ends.
    #[tactic(auto, unfolding(crate::specs::Going::go, kernel_meaning::specs::Run::expr))]
    pub(crate) fn branches(
        &mut self,
        class: &Class<'_>,
        at: u32,
        node: Part,
        place: usize,
    ) -> Result<Event, EvalError>
        requires fit { IsFitMachine class.now self.old }
        ensures does { Leads class.now (branches (standing class.now self.old) at
            (from_place place (parts (tree_of class.now.cells node))) self.old.state
            (after class.now self.old) (leaving class.now self.old)) result self.new }
        ensures falls { CostsBelow class.now (idle class.now self.old + 17) result self.new }
        ensures fit { OnOk result (IsFitMachine class.now self.new) }
    {
        let parts = branch_at(class.tree(), node);
        let count = parts.children.len();
        if place >= count {
            return self.give(class, Value::Nothing);
        }
        if place + 1 >= count {
            self.now = Now::Exec(part(&parts, place));
            return Ok(Event::On);
        }
        let task = Task::Test {
            at,
            node,
            place: place + 2,
            body: part(&parts, place + 1),
        };
        self.evaluate_for(class, task, part(&parts, place))
    }

    // The condition of a body has its value.
    #[tactic(auto, unfolding(crate::specs::Going::go, kernel_meaning::specs::Run::expr))]
    pub(crate) fn tested(
        &mut self,
        class: &Class<'_>,
        at: u32,
        node: Part,
        place: usize,
        body: Part,
        value: &Value,
    ) -> Result<Event, EvalError>
        requires fit { IsFitMachine class.now self.old }
        ensures does { Leads class.now (chosen at value.now self.old.state
            (λ state. exec (standing class.now self.old) (tree_of class.now.cells body) state
            (after class.now self.old) (leaving class.now self.old))
            (λ state. branches (standing class.now self.old) at
            (from_place place (parts (tree_of class.now.cells node))) state
            (after class.now self.old) (leaving class.now self.old))) result self.new }
        ensures falls { CostsBelow class.now (idle class.now self.old + 17) result self.new }
        ensures fit { OnOk result (IsFitMachine class.now self.new) }
    {
        if condition(at, value)? {
            self.now = Now::Exec(body);
            Ok(Event::On)
        } else {
            self.branches(class, at, node, place)
        }
    }
}

/// Whether a condition of the host holds.
///
/// Its errors are `Unset` and `WrongKind`.
pub(crate) fn condition(at: u32, value: &Value) -> Result<bool, EvalError>
    ensures { IsCondition at value.now result }
{
    match value {
        Value::Flag(holds) => Ok(*holds),
        Value::Nothing => Err(EvalError::Unset(at)),
        _ => Err(EvalError::WrongKind(at)),
    }
}
