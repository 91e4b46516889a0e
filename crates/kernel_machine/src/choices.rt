// `?:`, `&&` and `||`.
ghost use Rattle.std.specs.Prelude.{◌≡◌, ◌+◌, ◌∷◌, [], OnOk};
ghost use Rattle.kernel_rows.specs.Fit.{IsFit};
ghost use Rattle.kernel_meaning.specs.Answer.{used, does};
ghost use Rattle.kernel_meaning.specs.Rows as Rows;
ghost use Rattle.kernel_meaning.specs.Run.{choice, short, expr};
ghost use Rattle.kernel_meaning.specs.Ways.{picked, first_decides, flag_alone};
ghost use Rattle.kernel_meaning.specs.declared.row.Row.TheVariants as R;
ghost use Rattle.kernel_machine.specs.Left.{with_condition, with_second};
ghost use Rattle.kernel_plans.specs.Trees.{tree_of, trees_of};
ghost use Rattle.kernel_machine.specs.Going.{Leads, standing, rest, after, leaving};
ghost use Rattle.kernel_machine.specs.Falls.{CostsBelow, idle};
ghost use Rattle.kernel_machine.specs.Fit.{IsFitMachine};

use crate::machine::{Event, Machine, Now};
use crate::parts::{part, present};
use crate::task::{Part, Task};
use kernel_meaning::{EvalError, Row, Value};
use kernel_plans::{Branch, Class};
use kernel_rows::row_of;
use std::alloc::Global;

impl Machine {
    // `?:` begins with its condition.
    #[tactic(auto, unfolding(crate::specs::Going::go, kernel_meaning::specs::Run::expr))]
    pub(crate) fn choice(
        &mut self,
        class: &Class<'_>,
        expression: &Branch<'_>,
    ) -> Result<Event, EvalError>
        requires fit { IsFitMachine class.now self.old }
        ensures does { Leads class.now (choice (standing class.now self.old) expression.now.span.from
            (trees_of class.now.cells expression.now.id expression.now.children.now)
            self.old.state (rest class.now self.old)) result self.new }
        ensures falls { CostsBelow class.now (idle class.now self.old + 17) result self.new }
        ensures fit { OnOk result (IsFitMachine class.now self.new) }
    {
        let at = expression.span.from;
        if expression.children.len() != 3 {
            return Err(EvalError::WrongKind(at));
        }
        let task = Task::Choice {
            at,
            first: part(expression, 1),
            second: part(expression, 2),
        };
        self.evaluate_for(class, task, part(expression, 0))
    }

    // `&&`, or with `either` `||`, begins with its first operand.
    #[tactic(auto, unfolding(crate::specs::Going::go, kernel_meaning::specs::Run::expr))]
    pub(crate) fn short(
        &mut self,
        class: &Class<'_>,
        either: bool,
        expression: &Branch<'_>,
    ) -> Result<Event, EvalError>
        requires fit { IsFitMachine class.now self.old }
        ensures does { Leads class.now (short (standing class.now self.old) either
            expression.now.span.from
            (trees_of class.now.cells expression.now.id expression.now.children.now)
            self.old.state (rest class.now self.old)) result self.new }
        ensures falls { CostsBelow class.now (idle class.now self.old + 17) result self.new }
        ensures fit { OnOk result (IsFitMachine class.now self.new) }
    {
        let at = expression.span.from;
        if expression.children.len() != 2 {
            return Err(EvalError::WrongKind(at));
        }
        let task = Task::Short {
            at,
            either,
            second: part(expression, 1),
        };
        self.evaluate_for(class, task, part(expression, 0))
    }

    // `?:` has its condition.
    #[tactic(auto, unfolding(crate::specs::Going::go, kernel_meaning::specs::Run::expr))]
    pub(crate) fn chosen(
        &mut self,
        class: &Class<'_>,
        at: u32,
        first: Part,
        second: Part,
        value: Value,
    ) -> Result<Event, EvalError>
        requires value { IsFit value }
        requires fit { IsFitMachine class.now self.old }
        ensures does { Leads class.now (with_condition (standing class.now self.old) at
            (tree_of class.now.cells first) (tree_of class.now.cells second) value self.old.state
            (rest class.now self.old)) result self.new }
        ensures falls { CostsBelow class.now (idle class.now self.old + 17) result self.new }
        ensures fit { OnOk result (IsFitMachine class.now self.new) }
    {
        match value {
            Value::Nothing => Err(EvalError::Unset(at)),
            Value::Flag(holds) => {
                self.tasks.push(Task::Picked { at })?;
                self.now = Now::Eval(if holds { first } else { second });
                Ok(Event::On)
            }
            Value::Stream { .. } => {
                self.tasks.push(Task::ChooseFirst {
                    at,
                    second,
                    test: value,
                })?;
                self.now = Now::Eval(first);
                Ok(Event::On)
            }
            _ => Err(EvalError::WrongKind(at)),
        }
    }

    // The branch that the host chose has its value.
    #[tactic(auto, unfolding(crate::specs::Going::go, kernel_meaning::specs::Run::expr))]
    pub(crate) fn picked(
        &mut self,
        class: &Class<'_>,
        at: u32,
        value: Value,
    ) -> Result<Event, EvalError>
        requires value { IsFit value }
        requires fit { IsFitMachine class.now self.old }
        ensures does { Leads class.now (picked at value self.old.state (rest class.now self.old))
            result self.new }
        ensures falls { CostsBelow class.now (idle class.now self.old + 5) result self.new }
        ensures fit { OnOk result (IsFitMachine class.now self.new) }
    {
        match value {
            Value::Nothing => Err(EvalError::Unset(at)),
            Value::Literal { .. } => Err(EvalError::WrongKind(at)),
            value => self.give(class, value),
        }
    }

    // `?:` by a stream has its first branch.
    #[tactic(auto, unfolding(crate::specs::Going::go, kernel_meaning::specs::Run::expr))]
    pub(crate) fn first_chosen(
        &mut self,
        class: &Class<'_>,
        at: u32,
        second: Part,
        test: Value,
        value: Value,
    ) -> Result<Event, EvalError>
        requires test { IsFit test }
        requires value { IsFit value }
        requires fit { IsFitMachine class.now self.old }
        ensures does { Leads class.now (used at value self.old.state (λ value state.
            with_second (standing class.now self.old) at (tree_of class.now.cells second) test value
            state (rest class.now self.old))) result self.new }
        ensures falls { CostsBelow class.now (idle class.now self.old + 17) result self.new }
        ensures fit { OnOk result (IsFitMachine class.now self.new) }
    {
        let first = present(at, value)?;
        self.evaluate_for(class, Task::ChooseSecond { at, test, first }, second)
    }

    // `?:` by a stream has its second branch.
    #[tactic(auto, unfolding(crate::specs::Going::go, kernel_meaning::specs::Run::expr))]
    pub(crate) fn second_chosen(
        &mut self,
        alloc: Global,
        class: &Class<'_>,
        at: u32,
        test: Value,
        first: Value,
        value: Value,
    ) -> Result<Event, EvalError>
        requires test { IsFit test }
        requires first { IsFit first }
        requires value { IsFit value }
        requires fit { IsFitMachine class.now self.old }
        ensures does { Leads class.now (used at value self.old.state (λ value state.
            does (Rows.row_of R.Choose at (test ∷ first ∷ value ∷ []) state)
            (rest class.now self.old))) result self.new }
        ensures falls { CostsBelow class.now (idle class.now self.old + 5) result self.new }
        ensures fit { OnOk result (IsFitMachine class.now self.new) }
    {
        let value = present(at, value)?;
        let values = [test, first, value];
        let done = row_of(alloc, Row::Choose, at, &values, &mut self.state)?;
        self.settle(class, done)
    }

    // `&&` or `||` has its first operand.
    #[tactic(auto, unfolding(crate::specs::Going::go, kernel_meaning::specs::Run::expr))]
    pub(crate) fn first_decides(
        &mut self,
        class: &Class<'_>,
        at: u32,
        either: bool,
        second: Part,
        value: &Value,
    ) -> Result<Event, EvalError>
        requires fit { IsFitMachine class.now self.old }
        ensures does { Leads class.now (first_decides either at value.now self.old.state
            (rest class.now self.old)
            (λ state. expr (standing class.now self.old) (tree_of class.now.cells second) state
            (λ value state. flag_alone at value state (rest class.now self.old)))) result self.new }
        ensures falls { CostsBelow class.now (idle class.now self.old + 17) result self.new }
        ensures fit { OnOk result (IsFitMachine class.now self.new) }
    {
        match value {
            Value::Flag(holds) => {
                if *holds == either {
                    return self.give(class, Value::Flag(*holds));
                }
                self.evaluate_for(class, Task::FlagAlone { at }, second)
            }
            Value::Nothing => Err(EvalError::Unset(at)),
            _ => Err(EvalError::WrongKind(at)),
        }
    }

    // The second operand of `&&` or `||` is the value.
    #[tactic(auto, unfolding(crate::specs::Going::go, kernel_meaning::specs::Run::expr))]
    pub(crate) fn flag_alone(
        &mut self,
        class: &Class<'_>,
        at: u32,
        value: &Value,
    ) -> Result<Event, EvalError>
        requires fit { IsFitMachine class.now self.old }
        ensures does { Leads class.now (flag_alone at value.now self.old.state
            (rest class.now self.old)) result self.new }
        ensures falls { CostsBelow class.now (idle class.now self.old + 5) result self.new }
        ensures fit { OnOk result (IsFitMachine class.now self.new) }
    {
        match value {
            Value::Flag(holds) => self.give(class, Value::Flag(*holds)),
            Value::Nothing => Err(EvalError::Unset(at)),
            _ => Err(EvalError::WrongKind(at)),
        }
    }
}
