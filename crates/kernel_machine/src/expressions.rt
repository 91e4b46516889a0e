// Expressions: their operands from left to right, and then what is done with the values.
ghost use Rattle.std.specs.Prelude.{◌≡◌, ◌+◌, ◌++◌, ◌∷◌, [], OnOk};
ghost use Rattle.kernel_rows.specs.Fit.{IsFit, AreFit};
ghost use Rattle.kernel_meaning.specs.Answer.{after_calls, used};
ghost use Rattle.kernel_meaning.specs.Run.{expr, operate};
ghost use Rattle.kernel_machine.specs.Left.{operands_left, finish, planned_at};
ghost use Rattle.maxj_syntax.specs.Ranges.{AreInRange, IsInRange};
ghost use Rattle.kernel_plans.specs.Trees.{tree_of, branch_tree};
ghost use Rattle.kernel_machine.specs.Going.{Leads, go, standing, rest, after, leaving};
ghost use Rattle.kernel_machine.specs.Falls.{CostsBelow, idle, weight};
ghost use Rattle.kernel_machine.specs.Fit.{IsFitMachine, IsFitPurpose, IsFitTask};

use crate::machine::{Event, Machine, Now};
use crate::parts::{is_mute_part, mute_place_of, node_at, part, with_present};
use crate::task::{Part, Purpose, Task};
use kernel_meaning::{EvalError, Row, Value};
use kernel_plans::{Branch, Class, Form, branch_at, form_of, plan_of};
use kernel_rows::{Done, OperandPlan, row_of};
use mx_base::List;
use std::alloc::Global;

impl Machine {
    // Goes on with a value.
    #[tactic(auto, unfolding(crate::specs::Going::go, kernel_meaning::specs::Run::expr))]
    pub(crate) fn give(&mut self, class: &Class<'_>, value: Value) -> Result<Event, EvalError>
        requires value { IsFit value }
        requires fit { IsFitMachine class.now self.old }
        ensures does { Leads class.now (rest class.now self.old value self.old.state)
            result self.new }
        ensures falls { CostsBelow class.now (idle class.now self.old + 5) result self.new }
        ensures fit { OnOk result (IsFitMachine class.now self.new) }
    {
        self.now = Now::Give(value);
        Ok(Event::On)
    }

    // Evaluates an expression, for whose value this task waits.
    #[tactic(auto, unfolding(crate::specs::Going::go, kernel_meaning::specs::Run::expr))]
    pub(crate) fn evaluate_for(
        &mut self,
        class: &Class<'_>,
        task: Task,
        part: Part,
    ) -> Result<Event, EvalError>
        requires task { IsFitTask class.now task }
        requires fit { IsFitMachine class.now self.old }
        ensures does { Leads class.now (expr (standing class.now self.old)
            (tree_of class.now.cells part) self.old.state (λ value state. go class.now
            (standing class.now self.old) (task ∷ self.old.tasks) value state
            (leaving class.now self.old))) result self.new }
        ensures falls { CostsBelow class.now (idle class.now self.old + weight class.now task + 1)
            result self.new }
        ensures fit { OnOk result (IsFitMachine class.now self.new) }
    {
        self.tasks.push(task)?;
        self.now = Now::Eval(part);
        Ok(Event::On)
    }

    // Goes on with the calls and the value of a row.
    #[tactic(auto, unfolding(crate::specs::Going::go, kernel_meaning::specs::Run::expr))]
    pub(crate) fn settle(&mut self, class: &Class<'_>, done: Done) -> Result<Event, EvalError>
        requires value { IsFit done.value }
        requires fit { IsFitMachine class.now self.old }
        ensures does { Leads class.now
            (after_calls done.calls done.value self.old.state (rest class.now self.old))
            result self.new }
        ensures falls { CostsBelow class.now (idle class.now self.old + 5) result self.new }
        ensures fit { OnOk result (IsFitMachine class.now self.new) }
    {
        self.now = Now::Give(done.value);
        Ok(Event::Makes(done.calls))
    }

    // Goes on with an expression's operand of this place, or with what is done with the values.
    #[tactic(auto, unfolding(crate::specs::Going::go, kernel_meaning::specs::Run::expr))]
    pub(crate) fn operands(
        &mut self,
        alloc: Global,
        class: &Class<'_>,
        purpose: Purpose,
        at: u32,
        node: Part,
        place: usize,
        count: u32,
        values: List<Value>,
    ) -> Result<Event, EvalError>
        requires purpose { IsFitPurpose purpose }
        requires values { AreFit values }
        requires fit { IsFitMachine class.now self.old }
        requires within { AreInRange class.now.cells }
        ensures does { Leads class.now (operands_left class.now.cells (standing class.now self.old)
            purpose at node place count values self.old.state (rest class.now self.old))
            result self.new }
        ensures falls { CostsBelow class.now (idle class.now self.old + 49) result self.new }
        ensures fit { OnOk result (IsFitMachine class.now self.new) }
    {
        let parts = branch_at(class.tree(), node);
        if count == 0 || place >= parts.children.len() {
            return self.finish(alloc, class, purpose, at, values);
        }
        let task = Task::Operands {
            node,
            at,
            place: place + 1,
            count: count - 1,
            purpose,
            values,
        };
        self.evaluate_for(class, task, part(&parts, place))
    }

    // An operand has its value: it goes behind those before it, and on to the next operand.
    #[tactic(auto, unfolding(crate::specs::Going::go, kernel_meaning::specs::Run::expr))]
    pub(crate) fn operand_given(
        &mut self,
        alloc: Global,
        class: &Class<'_>,
        purpose: Purpose,
        at: u32,
        node: Part,
        place: usize,
        count: u32,
        values: List<Value>,
        value: Value,
    ) -> Result<Event, EvalError>
        requires purpose { IsFitPurpose purpose }
        requires values { AreFit values }
        requires value { IsFit value }
        requires fit { IsFitMachine class.now self.old }
        requires within { AreInRange class.now.cells }
        ensures does { Leads class.now (used at value self.old.state (λ value state.
            operands_left class.now.cells (standing class.now self.old) purpose at node place count
            (values ++ value ∷ []) state (rest class.now self.old))) result self.new }
        ensures falls { CostsBelow class.now (idle class.now self.old + 49) result self.new }
        ensures fit { OnOk result (IsFitMachine class.now self.new) }
    {
        match with_present(values, at, value) {
            Ok(values) => { self.operands(alloc, class, purpose, at, node, place, count, values) }
            Err(error) => Err(error),
        }
    }

    // What is done with operands, all of which have values.
    #[tactic(auto, unfolding(crate::specs::Going::go, kernel_meaning::specs::Run::expr))]
    fn finish(
        &mut self,
        alloc: Global,
        class: &Class<'_>,
        purpose: Purpose,
        at: u32,
        values: List<Value>,
    ) -> Result<Event, EvalError>
        requires purpose { IsFitPurpose purpose }
        requires values { AreFit values }
        requires fit { IsFitMachine class.now self.old }
        requires within { AreInRange class.now.cells }
        ensures does { Leads class.now (finish class.now.cells (standing class.now self.old)
            purpose at values self.old.state (rest class.now self.old)) result self.new }
        ensures falls { CostsBelow class.now (idle class.now self.old + 49) result self.new }
        ensures fit { OnOk result (IsFitMachine class.now self.new) }
    {
        match purpose {
            Purpose::ForRow(row) => self.operate(alloc, class, row, at, values),
            Purpose::ForKernelName {
                node,
                class: number,
            } => self.kernel_named(alloc, class, node, number, at, values),
            Purpose::ForKernel {
                class: number,
                name,
            } => self.kernel_made(alloc, class, number, &name, at, values),
        }
    }

    // A row of the tables, or a call of a method of the own class.
    #[tactic(auto, unfolding(crate::specs::Going::go, kernel_meaning::specs::Run::expr))]
    fn operate(
        &mut self,
        alloc: Global,
        class: &Class<'_>,
        row: Row,
        at: u32,
        values: List<Value>,
    ) -> Result<Event, EvalError>
        requires purpose { IsFitPurpose (Purpose.ForRow row) }
        requires values { AreFit values }
        requires fit { IsFitMachine class.now self.old }
        requires within { AreInRange class.now.cells }
        ensures does { Leads class.now (operate (standing class.now self.old) row at values
            self.old.state (rest class.now self.old)) result self.new }
        ensures falls { CostsBelow class.now (idle class.now self.old + 49) result self.new }
        ensures fit { OnOk result (IsFitMachine class.now self.new) }
    {
        match row {
            Row::OwnMethod(name) => self.enter(alloc, class, &name, at, values),
            row => {
                let done = row_of(alloc, row, at, values.as_slice(), &mut self.state)?;
                self.settle(class, done)
            }
        }
    }

    // An expression is evaluated.
    pub(crate) fn evaluate(
        &mut self,
        alloc: Global,
        class: &Class<'_>,
        part: Part,
    ) -> Result<Event, EvalError>
        requires fit { IsFitMachine class.now self.old }
        requires within { AreInRange class.now.cells }
        ensures does { Leads class.now (expr (standing class.now self.old)
            (tree_of class.now.cells part) self.old.state (rest class.now self.old))
            result self.new }
        ensures falls { CostsBelow class.now (idle class.now self.old) result self.new }
        ensures fit { OnOk result (IsFitMachine class.now self.new) }
    {
        let expression = node_at(class, part);
        if is_mute_part(class, &self.state, part) {
            return Err(EvalError::UnknownName(mute_place_of(class, part)));
        }
        if !self.count() {
            return Err(EvalError::StepLimit);
        }
        match form_of(&expression) {
            Form::Choice => self.choice(class, &expression),
            Form::Short { either } => self.short(class, either, &expression),
            Form::AllOperands => self.planned(alloc, class, part, &expression),
        }
    }

    // An expression is evaluated by its plan, after its step was counted.
    fn planned(
        &mut self,
        alloc: Global,
        class: &Class<'_>,
        part: Part,
        expression: &Branch<'_>,
    ) -> Result<Event, EvalError>
        requires tree { branch_tree class.now.cells expression.now ≡ tree_of class.now.cells part }
        requires literal { IsInRange expression.now.kind expression.now.word.now }
        requires fit { IsFitMachine class.now self.old }
        requires within { AreInRange class.now.cells }
        ensures does { Leads class.now
            (planned_at (standing class.now self.old) (tree_of class.now.cells part) self.old.state
            (rest class.now self.old)) result self.new }
        ensures falls { CostsBelow class.now (idle class.now self.old + 65) result self.new }
        ensures fit { OnOk result (IsFitMachine class.now self.new) }
    {
        let at = expression.span.from;
        match plan_of(alloc, class, expression, &self.state)? {
            OperandPlan::Fault(error) => Err(error),
            OperandPlan::Reads { row, from, count } => {
                let purpose = Purpose::ForRow(row);
                let values = List::new(alloc);
                self.operands(
                    alloc,
                    class,
                    purpose,
                    at,
                    part,
                    from as usize,
                    count,
                    values,
                )
            }
            OperandPlan::AddsKernel => self.add_kernel(alloc, class, expression),
        }
    }
}
