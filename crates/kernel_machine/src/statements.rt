// Statements: blocks, `if`, calls and returns.
ghost use Rattle.std.specs.Prelude.{◌≡◌, ◌+◌, ◌∷◌, OnOk, OnErr, suc};
ghost use Rattle.kernel_meaning.specs.Run.{exec, block};
ghost use Rattle.kernel_meaning.specs.declared.value.Value.TheVariants as V;
ghost use Rattle.kernel_machine.specs.Left.{parts, from_place};
ghost use Rattle.kernel_plans.specs.Trees.{tree_of, branch_tree};
ghost use Rattle.maxj_syntax.specs.declared.tree.NodeKind.{NodeKind};
ghost use Rattle.maxj_syntax.specs.Ranges.{AreInRange};
ghost use Rattle.kernel_machine.specs.Going.{Leads, go, standing, rest, after, leaving};
ghost use Rattle.kernel_machine.specs.Falls.{CostsBelow, idle, weight};
ghost use Rattle.kernel_machine.specs.Fit.{IsFitMachine, IsFitTask};

use crate::machine::{Event, Machine, Now};
use crate::parts::part;
use crate::task::{Part, Purpose, Task};
use kernel_meaning::{EvalError, Row, Value};
use kernel_plans::{Branch, Class, branch_at};
use mx_base::List;
use std::alloc::Global;

impl Machine {
    // Runs a statement, for whose end this task waits.
    #[tactic(auto, unfolding(crate::specs::Going::go, kernel_meaning::specs::Run::expr))]
    pub(crate) fn execute_for(
        &mut self,
        class: &Class<'_>,
        task: Task,
        part: Part,
    ) -> Result<Event, EvalError>
        requires task { IsFitTask class.now task }
        requires fit { IsFitMachine class.now self.old }
        ensures does { Leads class.now (exec (standing class.now self.old)
            (tree_of class.now.cells part) self.old.state (λ state. go class.now
            (standing class.now self.old) (task ∷ self.old.tasks) V.Nothing state
            (leaving class.now self.old)) (leaving class.now self.old)) result self.new }
        ensures falls { CostsBelow class.now (idle class.now self.old + weight class.now task + 1)
            result self.new }
        ensures fit { OnOk result (IsFitMachine class.now self.new) }
    {
        self.tasks.push(task)?;
        self.now = Now::Exec(part);
        Ok(Event::On)
    }

    // A block goes on with the statement of this place, and then leaves so many variables.
    #[tactic(auto, unfolding(crate::specs::Going::go, kernel_meaning::specs::Run::expr))]
    pub(crate) fn statements(
        &mut self,
        class: &Class<'_>,
        node: Part,
        place: usize,
        count: usize,
    ) -> Result<Event, EvalError>
        requires fit { IsFitMachine class.now self.old }
        ensures does { Leads class.now (block (standing class.now self.old) count
            (from_place place (parts (tree_of class.now.cells node))) self.old.state
            (after class.now self.old) (leaving class.now self.old)) result self.new }
        ensures falls { CostsBelow class.now (idle class.now self.old + 17) result self.new }
        ensures fit { OnOk result (IsFitMachine class.now self.new) }
    {
        let parts = branch_at(class.tree(), node);
        if place >= parts.children.len() {
            self.state.variables.keep(count);
            return self.give(class, Value::Nothing);
        }
        let task = Task::Statements {
            node,
            place: place + 1,
            count,
        };
        self.execute_for(class, task, part(&parts, place))
    }

    // A call that is a statement.
    #[tactic(auto, unfolding(crate::specs::Going::go, kernel_meaning::specs::Run::expr))]
    pub(crate) fn call(
        &mut self,
        class: &Class<'_>,
        statement: &Branch<'_>,
    ) -> Result<Event, EvalError>
        requires kind { statement.now.kind ≡ NodeKind.Run }
        requires fit { IsFitMachine class.now self.old }
        ensures does { Leads class.now (exec (standing class.now self.old)
            (branch_tree class.now.cells statement.now) self.old.state
            (after class.now self.old) (leaving class.now self.old)) result self.new }
        ensures falls { CostsBelow class.now (idle class.now self.old) result self.new }
        ensures fit { OnOk result (IsFitMachine class.now self.new) }
    {
        if statement.children.len() != 1 {
            return Err(EvalError::WrongKind(statement.span.from));
        }
        let call = part(statement, 0);
        if !self.count() {
            return Err(EvalError::StepLimit);
        }
        self.evaluate_for(class, Task::Discard, call)
    }

    // `return`, with a value or without.
    #[tactic(auto, unfolding(crate::specs::Going::go, kernel_meaning::specs::Run::expr))]
    pub(crate) fn return_value(
        &mut self,
        class: &Class<'_>,
        statement: &Branch<'_>,
    ) -> Result<Event, EvalError>
        requires kind { statement.now.kind ≡ NodeKind.Return }
        requires fit { IsFitMachine class.now self.old }
        ensures does { Leads class.now (exec (standing class.now self.old)
            (branch_tree class.now.cells statement.now) self.old.state
            (after class.now self.old) (leaving class.now self.old)) result self.new }
        ensures falls { CostsBelow class.now (idle class.now self.old) result self.new }
        ensures fit { OnOk result (IsFitMachine class.now self.new) }
    {
        let at = statement.span.from;
        match statement.children.len() {
            0 => {
                if !self.count() {
                    return Err(EvalError::StepLimit);
                }
                self.leave(class, Value::Nothing)
            }
            1 => {
                let value = part(statement, 0);
                if !self.count() {
                    return Err(EvalError::StepLimit);
                }
                self.evaluate_for(class, Task::GiveBack { at }, value)
            }
            _ => Err(EvalError::WrongKind(at)),
        }
    }

    // The statement that does nothing.
    #[tactic(auto, unfolding(crate::specs::Going::go, kernel_meaning::specs::Run::expr))]
    pub(crate) fn nothing(
        &mut self,
        class: &Class<'_>,
        statement: &Branch<'_>,
    ) -> Result<Event, EvalError>
        requires kind { statement.now.kind ≡ NodeKind.Empty }
        requires fit { IsFitMachine class.now self.old }
        ensures does { Leads class.now (exec (standing class.now self.old)
            (branch_tree class.now.cells statement.now) self.old.state
            (after class.now self.old) (leaving class.now self.old)) result self.new }
        ensures falls { CostsBelow class.now (idle class.now self.old) result self.new }
        ensures fit { OnOk result (IsFitMachine class.now self.new) }
    {
        if !self.count() {
            return Err(EvalError::StepLimit);
        }
        self.give(class, Value::Nothing)
    }

    // A block, which is this node.
    #[tactic(auto, unfolding(crate::specs::Going::go, kernel_meaning::specs::Run::expr))]
    pub(crate) fn block(
        &mut self,
        class: &Class<'_>,
        node: Part,
        statement: &Branch<'_>,
    ) -> Result<Event, EvalError>
        requires tree { tree_of class.now.cells node ≡ branch_tree class.now.cells statement.now }
        requires kind { statement.now.kind ≡ NodeKind.Block }
        requires fit { IsFitMachine class.now self.old }
        ensures does { Leads class.now (exec (standing class.now self.old)
            (branch_tree class.now.cells statement.now) self.old.state
            (after class.now self.old) (leaving class.now self.old)) result self.new }
        ensures falls { CostsBelow class.now (idle class.now self.old) result self.new }
        ensures fit { OnOk result (IsFitMachine class.now self.new) }
    {
        let count = self.state.variables.len();
        if !self.count() {
            return Err(EvalError::StepLimit);
        }
        self.statements(class, node, 0, count)
    }

    // `if`, which is this node.
    #[tactic(auto, unfolding(crate::specs::Going::go, kernel_meaning::specs::Run::expr))]
    pub(crate) fn conditional(
        &mut self,
        class: &Class<'_>,
        node: Part,
        statement: &Branch<'_>,
    ) -> Result<Event, EvalError>
        requires tree { tree_of class.now.cells node ≡ branch_tree class.now.cells statement.now }
        requires kind { statement.now.kind ≡ NodeKind.If }
        requires fit { IsFitMachine class.now self.old }
        ensures does { Leads class.now (exec (standing class.now self.old)
            (branch_tree class.now.cells statement.now) self.old.state
            (after class.now self.old) (leaving class.now self.old)) result self.new }
        ensures falls { CostsBelow class.now (idle class.now self.old) result self.new }
        ensures fit { OnOk result (IsFitMachine class.now self.new) }
    {
        let at = statement.span.from;
        if !self.count() {
            return Err(EvalError::StepLimit);
        }
        self.branches(class, at, node, 0)
    }

    // `<==`, which is this node.
    #[tactic(auto, unfolding(crate::specs::Going::go, kernel_meaning::specs::Run::expr))]
    pub(crate) fn connect(
        &mut self,
        alloc: Global,
        class: &Class<'_>,
        node: Part,
        statement: &Branch<'_>,
    ) -> Result<Event, EvalError>
        requires tree { tree_of class.now.cells node ≡ branch_tree class.now.cells statement.now }
        requires kind { statement.now.kind ≡ NodeKind.Connect }
        requires fit { IsFitMachine class.now self.old }
        requires within { AreInRange class.now.cells }
        ensures does { Leads class.now (exec (standing class.now self.old)
            (branch_tree class.now.cells statement.now) self.old.state
            (after class.now self.old) (leaving class.now self.old)) result self.new }
        ensures falls { CostsBelow class.now (idle class.now self.old) result self.new }
        ensures fit { OnOk result (IsFitMachine class.now self.new) }
    {
        let at = statement.span.from;
        if !self.count() {
            return Err(EvalError::StepLimit);
        }
        self.tasks.push(Task::Discard)?;
        let purpose = Purpose::ForRow(Row::Connect);
        let values = List::new(alloc);
        self.operands(alloc, class, purpose, at, node, 0, 2, values)
    }
}
