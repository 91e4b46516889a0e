// A step: a statement, or what waits for a value.
ghost use Rattle.std.specs.Prelude.{◌≡◌, ◌+◌, ◌∷◌, OnOk, false};
ghost use Rattle.kernel_rows.specs.Fit.{IsFit};
ghost use Rattle.kernel_meaning.specs.Run.{exec};
ghost use Rattle.maxj_syntax.specs.Ranges.{AreInRange};
ghost use Rattle.kernel_plans.specs.Trees.{tree_of, branch_tree};
ghost use Rattle.kernel_machine.specs.Going.{Leads, answer_of, go, standing, rest, after, leaving};
ghost use Rattle.kernel_machine.specs.Falls.{CostsBelow, idle, load, weight};
ghost use Rattle.kernel_machine.specs.Fit.{IsFitMachine, IsFitTask};
ghost use Rattle.kernel_machine.specs.Groups.{is_alone, is_of_expression, is_of_statement};

use crate::counting::most_turns;
use crate::machine::{Event, Machine, Now};
use crate::parts::node_at;
use crate::task::{Part, Task};
use kernel_meaning::{EvalError, Value};
use kernel_plans::{Branch, Class};
use maxj_syntax::NodeKind;
use std::alloc::Global;
use std::mem;

impl Machine {
    /// Does the next step of the run.
    ///
    /// What is left of the run before it is what the step did, calls or an error or the end, and
    /// then what is left after it. `NoMemory` alone says nothing of it. Where the run goes on, the
    /// machine costs less than before.
    #[tactic(auto, unfolding(crate::specs::Going::go, kernel_meaning::specs::Run::expr))]
    pub fn step(&mut self, alloc: Global, class: &Class<'_>) -> Result<Event, EvalError>
        requires fit { IsFitMachine class.now self.old }
        requires within { AreInRange class.now.cells }
        ensures does { Leads class.now (answer_of class.now self.old) result self.new }
        ensures falls { CostsBelow class.now (load class.now self.old) result self.new }
        ensures fit { OnOk result (IsFitMachine class.now self.new) }
    {
        match mem::replace(&mut self.now, Now::Give(Value::Nothing)) {
            Now::Eval(part) => self.evaluate(alloc, class, part),
            Now::Exec(part) => self.execute(alloc, class, part),
            Now::Braces(node, of) => self.braces(alloc, class, node, of),
            Now::Give(value) => self.resume(alloc, class, value),
        }
    }

    // A statement.
    #[tactic(auto, unfolding(crate::specs::Going::go, kernel_meaning::specs::Run::expr))]
    fn execute(&mut self, alloc: Global, class: &Class<'_>, part: Part) -> Result<Event, EvalError>
        requires fit { IsFitMachine class.now self.old }
        requires within { AreInRange class.now.cells }
        ensures does { Leads class.now (exec (standing class.now self.old)
            (tree_of class.now.cells part) self.old.state (after class.now self.old)
            (leaving class.now self.old)) result self.new }
        ensures falls { CostsBelow class.now (idle class.now self.old) result self.new }
        ensures fit { OnOk result (IsFitMachine class.now self.new) }
    {
        let statement = node_at(class, part);
        match statement.kind {
            NodeKind::Empty => self.nothing(class, &statement),
            NodeKind::Local => self.local(alloc, class, &statement),
            NodeKind::Set => self.set(alloc, class, part, &statement),
            NodeKind::Connect => self.connect(alloc, class, part, &statement),
            NodeKind::Run => self.call(class, &statement),
            NodeKind::Return => self.return_value(class, &statement),
            _ => self.execute_inner(class, part, &statement),
        }
    }

    // A statement, which is this node, with statements inside.
    #[tactic(auto, unfolding(crate::specs::Going::go, kernel_meaning::specs::Run::expr))]
    fn execute_inner(
        &mut self,
        class: &Class<'_>,
        node: Part,
        statement: &Branch<'_>,
    ) -> Result<Event, EvalError>
        requires tree { tree_of class.now.cells node ≡ branch_tree class.now.cells statement.now }
        requires other { is_alone statement.now.kind ≡ false }
        requires fit { IsFitMachine class.now self.old }
        ensures does { Leads class.now (exec (standing class.now self.old)
            (branch_tree class.now.cells statement.now) self.old.state (after class.now self.old)
            (leaving class.now self.old)) result self.new }
        ensures falls { CostsBelow class.now (idle class.now self.old) result self.new }
        ensures fit { OnOk result (IsFitMachine class.now self.new) }
    {
        match statement.kind {
            NodeKind::Block => self.block(class, node, statement),
            NodeKind::If => self.conditional(class, node, statement),
            NodeKind::While => self.repeat_while(class, statement),
            NodeKind::For => self.repeat_for(class, statement),
            _ => Err(EvalError::WrongKind(statement.span.from)),
        }
    }

    // What waits for the value, or for the end of a statement, goes on.
    #[tactic(auto, unfolding(crate::specs::Going::go, kernel_meaning::specs::Run::expr))]
    fn resume(&mut self, alloc: Global, class: &Class<'_>, value: Value) -> Result<Event, EvalError>
        requires value { IsFit value }
        requires fit { IsFitMachine class.now self.old }
        requires within { AreInRange class.now.cells }
        ensures does { Leads class.now (rest class.now self.old value self.old.state) result
            self.new }
        ensures falls { CostsBelow class.now (idle class.now self.old + 4) result self.new }
        ensures fit { OnOk result (IsFitMachine class.now self.new) }
    {
        match self.tasks.pop() {
            None => self.leave(class, Value::Nothing),
            Some(task) => self.go_on(alloc, class, task, value),
        }
    }

    // This waited for the value, or for the end of a statement: an expression goes on here.
    #[tactic(auto, unfolding(crate::specs::Going::go, kernel_meaning::specs::Run::expr))]
    fn go_on(
        &mut self,
        alloc: Global,
        class: &Class<'_>,
        task: Task,
        value: Value,
    ) -> Result<Event, EvalError>
        requires task { IsFitTask class.now task }
        requires value { IsFit value }
        requires fit { IsFitMachine class.now self.old }
        requires within { AreInRange class.now.cells }
        ensures does { Leads class.now (go class.now (standing class.now self.old)
            (task ∷ self.old.tasks) value self.old.state (leaving class.now self.old)) result
            self.new }
        ensures falls { CostsBelow class.now (idle class.now self.old + weight class.now task + 4)
            result self.new }
        ensures fit { OnOk result (IsFitMachine class.now self.new) }
    {
        match task {
            Task::Operands {
                node,
                at,
                place,
                count,
                purpose,
                values,
            } => self.operand_given(alloc, class, purpose, at, node, place, count, values, value),
            Task::Choice { at, first, second } => self.chosen(class, at, first, second, value),
            Task::Picked { at } => self.picked(class, at, value),
            Task::ChooseFirst { at, second, test } => {
                self.first_chosen(class, at, second, test, value)
            }
            Task::ChooseSecond { at, test, first } => {
                self.second_chosen(alloc, class, at, test, first, value)
            }
            Task::Short { at, either, second } => {
                self.first_decides(class, at, either, second, &value)
            }
            Task::FlagAlone { at } => self.flag_alone(class, at, &value),
            task => self.go_on_statement(alloc, class, task, value),
        }
    }

    // A statement goes on, or the fields of a class.
    #[tactic(auto, unfolding(crate::specs::Going::go, kernel_meaning::specs::Run::expr))]
    fn go_on_statement(
        &mut self,
        alloc: Global,
        class: &Class<'_>,
        task: Task,
        value: Value,
    ) -> Result<Event, EvalError>
        requires other { is_of_expression task ≡ false }
        requires task { IsFitTask class.now task }
        requires value { IsFit value }
        requires fit { IsFitMachine class.now self.old }
        requires within { AreInRange class.now.cells }
        ensures does { Leads class.now (go class.now (standing class.now self.old)
            (task ∷ self.old.tasks) value self.old.state (leaving class.now self.old)) result
            self.new }
        ensures falls { CostsBelow class.now (idle class.now self.old + weight class.now task + 4)
            result self.new }
        ensures fit { OnOk result (IsFitMachine class.now self.new) }
    {
        match task {
            Task::Statements { node, place, count } => self.statements(class, node, place, count),
            Task::Test {
                at,
                node,
                place,
                body,
            } => self.tested(class, at, node, place, body, &value),
            Task::LoopBegin { repeat } => {
                let more = most_turns(self.state.left);
                self.turn(class, repeat, more)
            }
            Task::LoopTurn { repeat, more } => self.turned(class, repeat, more, &value),
            Task::LoopBody { repeat, more } => self.stepped(class, repeat, more),
            Task::LoopAgain { repeat, more } => self.turn(class, repeat, more),
            Task::Discard => self.give(class, Value::Nothing),
            Task::GiveBack { at } => self.given_back(class, at, value),
            Task::Fields {
                place,
                before,
                body,
                variables,
            } => self.fields(class, place, before, body, variables),
            task => self.go_on_setting(alloc, class, task, value),
        }
    }

    // What a variable is set to goes on: an initial value, or an assignment.
    #[tactic(auto, unfolding(crate::specs::Going::go, kernel_meaning::specs::Run::expr))]
    fn go_on_setting(
        &mut self,
        alloc: Global,
        class: &Class<'_>,
        task: Task,
        value: Value,
    ) -> Result<Event, EvalError>
        requires other { is_of_expression task ≡ false }
        requires setting { is_of_statement task ≡ false }
        requires task { IsFitTask class.now task }
        requires value { IsFit value }
        requires fit { IsFitMachine class.now self.old }
        requires within { AreInRange class.now.cells }
        ensures does { Leads class.now (go class.now (standing class.now self.old)
            (task ∷ self.old.tasks) value self.old.state (leaving class.now self.old)) result
            self.new }
        ensures falls { CostsBelow class.now (idle class.now self.old + weight class.now task + 4)
            result self.new }
        ensures fit { OnOk result (IsFitMachine class.now self.new) }
    {
        match task {
            Task::Initial { at, of, spot } => {
                self.initial_given(alloc, class, at, of, spot, value)
            }
            Task::Elements { node, of, values } => {
                self.element_given(class, node, of, values, value)
            }
            Task::Indexed {
                node,
                array,
                pending,
            } => self.indexed(alloc, class, node, array, pending, value),
            Task::Assign { at, spot } => self.assigned(alloc, class, at, spot, value),
            Task::Combine { node, old, spot } => {
                self.combine(alloc, class, node, old, spot, value)
            }
            Task::Store { at, spot } => self.put(alloc, class, at, spot, value),
            _ => unreachable!("an expression or a statement went on before"),
        }
    }
}
