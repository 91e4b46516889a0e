// Loops.
ghost use Rattle.std.specs.Prelude.{◌≡◌, ◌+◌, OnOk};
ghost use Rattle.kernel_meaning.specs.Ways.{is_absent};
ghost use Rattle.kernel_machine.specs.Positions.{IsTest, IsStep};
ghost use Rattle.kernel_machine.specs.Left.{turns_left, turn_on, step_of, body_of, left_by};
ghost use Rattle.kernel_plans.specs.Trees.{tree_of, branch_tree};
ghost use Rattle.kernel_meaning.specs.Run.{exec};
ghost use Rattle.maxj_syntax.specs.declared.tree.NodeKind.{NodeKind};
ghost use Rattle.kernel_machine.specs.Going.{Leads, standing, rest, after, leaving};
ghost use Rattle.kernel_machine.specs.Falls.{CostsBelow, idle};
ghost use Rattle.kernel_machine.specs.Fit.{IsFitMachine};
ghost use Rattle.kernel_rows.specs.Kept.{IsKept};

use crate::branches::condition;
use crate::counting::most_turns;
use crate::machine::{Event, Machine};
use crate::parts::part;
use crate::task::{Condition, Loop, Part, Task};
use kernel_meaning::{EvalError, Value};
use kernel_plans::{Branch, Class, is_absent};

impl Machine {
    // A loop goes on with its condition; so many turns may come.
    #[tactic(auto, unfolding(crate::specs::Going::go, kernel_meaning::specs::Ways::turns))]
    pub(crate) fn turn(
        &mut self,
        class: &Class<'_>,
        repeat: Loop,
        more: u64,
    ) -> Result<Event, EvalError>
        requires fit { IsFitMachine class.now self.old }
        ensures does { Leads class.now (turns_left class.now.cells (standing class.now self.old)
            (leaving class.now self.old) repeat more self.old.state (after class.now self.old)) result self.new }
        ensures falls { CostsBelow class.now (idle class.now self.old + 17) result self.new }
        ensures fit { OnOk result (IsFitMachine class.now self.new) }
    {
        let Some(more) = more.checked_sub(1) else {
            return Err(EvalError::StepLimit);
        };
        match repeat.condition {
            Condition::Always => self.turn_body(class, repeat, more),
            Condition::Holds(part) => {
                self.evaluate_for(class, Task::LoopTurn { repeat, more }, part)
            }
        }
    }

    // The body of a loop is run.
    #[tactic(auto, unfolding(crate::specs::Going::go, kernel_meaning::specs::Ways::turns))]
    fn turn_body(&mut self, class: &Class<'_>, repeat: Loop, more: u64) -> Result<Event, EvalError>
        requires fit { IsFitMachine class.now self.old }
        ensures does { Leads class.now (body_of class.now.cells (standing class.now self.old)
            (leaving class.now self.old) repeat self.old.state
            (λ state. turns_left class.now.cells (standing class.now self.old)
            (leaving class.now self.old) repeat more state (after class.now self.old))) result self.new }
        ensures falls { CostsBelow class.now (idle class.now self.old + 17) result self.new }
        ensures fit { OnOk result (IsFitMachine class.now self.new) }
    {
        self.execute_for(class, Task::LoopBody { repeat, more }, repeat.body)
    }

    // The condition of a loop has its value.
    #[tactic(auto, unfolding(crate::specs::Going::go, kernel_meaning::specs::Ways::turns))]
    pub(crate) fn turned(
        &mut self,
        class: &Class<'_>,
        repeat: Loop,
        more: u64,
        value: &Value,
    ) -> Result<Event, EvalError>
        requires fit { IsFitMachine class.now self.old }
        ensures does { Leads class.now (turn_on class.now.cells (standing class.now self.old)
            (leaving class.now self.old) repeat more value.now self.old.state
            (after class.now self.old)) result self.new }
        ensures falls { CostsBelow class.now (idle class.now self.old + 17) result self.new }
        ensures fit { OnOk result (IsFitMachine class.now self.new) }
    {
        if condition(repeat.at, value)? {
            return self.turn_body(class, repeat, more);
        }
        self.leave_variables(repeat.count);
        self.give(class, Value::Nothing)
    }

    // Only so many variables are left, after a `for`.
    fn leave_variables(&mut self, count: Option<usize>)
        requires kept { IsKept self.old.state }
        ensures left { self.new ≡ record self.old { state = left_by count self.old.state } }
        ensures kept { IsKept self.new.state }
    {
        if let Some(count) = count {
            self.state.variables.keep(count);
        }
    }

    // The body of a loop has ended.
    #[tactic(auto, unfolding(crate::specs::Going::go, kernel_meaning::specs::Ways::turns))]
    pub(crate) fn stepped(
        &mut self,
        class: &Class<'_>,
        repeat: Loop,
        more: u64,
    ) -> Result<Event, EvalError>
        requires fit { IsFitMachine class.now self.old }
        ensures does { Leads class.now (step_of class.now.cells (standing class.now self.old)
            (leaving class.now self.old) repeat.step self.old.state
            (λ state. turns_left class.now.cells (standing class.now self.old)
            (leaving class.now self.old) repeat more state (after class.now self.old))) result self.new }
        ensures falls { CostsBelow class.now (idle class.now self.old + 17) result self.new }
        ensures fit { OnOk result (IsFitMachine class.now self.new) }
    {
        if repeat.step.is_none() {
            return self.turn(class, repeat, more);
        }
        self.execute_for(class, Task::LoopAgain { repeat, more }, repeat.step)
    }

    // `while`.
    #[tactic(auto, unfolding(crate::specs::Going::go, kernel_meaning::specs::Run::expr))]
    pub(crate) fn repeat_while(
        &mut self,
        class: &Class<'_>,
        statement: &Branch<'_>,
    ) -> Result<Event, EvalError>
        requires kind { statement.now.kind ≡ NodeKind.While }
        requires fit { IsFitMachine class.now self.old }
        ensures does { Leads class.now (exec (standing class.now self.old)
            (branch_tree class.now.cells statement.now) self.old.state
            (after class.now self.old) (leaving class.now self.old)) result self.new }
        ensures falls { CostsBelow class.now (idle class.now self.old) result self.new }
        ensures fit { OnOk result (IsFitMachine class.now self.new) }
    {
        let at = statement.span.from;
        if statement.children.len() != 2 {
            return Err(EvalError::WrongKind(at));
        }
        let repeat = Loop {
            at,
            condition: Condition::Holds(part(statement, 0)),
            step: None,
            body: part(statement, 1),
            count: None,
        };
        if !self.count() {
            return Err(EvalError::StepLimit);
        }
        let more = most_turns(self.state.left);
        self.turn(class, repeat, more)
    }

    // `for`: after its first part, where there is one, its turns.
    #[tactic(auto, unfolding(crate::specs::Going::go, kernel_meaning::specs::Run::expr))]
    pub(crate) fn repeat_for(
        &mut self,
        class: &Class<'_>,
        statement: &Branch<'_>,
    ) -> Result<Event, EvalError>
        requires kind { statement.now.kind ≡ NodeKind.For }
        requires fit { IsFitMachine class.now self.old }
        ensures does { Leads class.now (exec (standing class.now self.old)
            (branch_tree class.now.cells statement.now) self.old.state
            (after class.now self.old) (leaving class.now self.old)) result self.new }
        ensures falls { CostsBelow class.now (idle class.now self.old) result self.new }
        ensures fit { OnOk result (IsFitMachine class.now self.new) }
    {
        let at = statement.span.from;
        if statement.children.len() != 4 {
            return Err(EvalError::WrongKind(at));
        }
        let first = part(statement, 0);
        let test = part(statement, 1);
        let step = part(statement, 2);
        let body = part(statement, 3);
        let repeat = Loop {
            at,
            condition: condition_at(class, test),
            step: step_at(class, step),
            body,
            count: Some(self.state.variables.len()),
        };
        if !self.count() {
            return Err(EvalError::StepLimit);
        }
        if absent(class, first) {
            let more = most_turns(self.state.left);
            return self.turn(class, repeat, more);
        }
        self.execute_for(class, Task::LoopBegin { repeat }, first)
    }
}

// The condition of a `for`.
fn condition_at(class: &Class<'_>, part: Part) -> Condition
    ensures { IsTest class.now.cells part result }
{
    if absent(class, part) {
        Condition::Always
    } else {
        Condition::Holds(part)
    }
}

// The step of a `for`.
fn step_at(class: &Class<'_>, part: Part) -> Part
    ensures { IsStep class.now.cells part result }
{
    if absent(class, part) { None } else { part }
}

// Whether a part is absent.
fn absent(class: &Class<'_>, part: Part) -> bool
    ensures { result ≡ is_absent (tree_of class.now.cells part) }
{
    is_absent(class.tree(), part)
}
