// Methods: how they are entered, and how they are left.
ghost use Rattle.std.specs.Prelude.{◌≡◌, ◌+◌, ◌-◌, OnOk, length};
ghost use Rattle.kernel_rows.specs.Fit.{IsFit, AreFit};
ghost use Rattle.kernel_meaning.specs.Answer.{used};
ghost use Rattle.kernel_meaning.specs.Run.{block_of, call_to};
ghost use Rattle.kernel_meaning.specs.Ways.{given_back};
ghost use Rattle.kernel_plans.specs.Trees.{tree_of};
ghost use Rattle.kernel_plans.specs.Classes.{members, library_of};
ghost use Rattle.kernel_machine.specs.Going.{Leads, standing, rest, after, leaving, back_of};
ghost use Rattle.kernel_machine.specs.Falls.{CostsBelow, idle};
ghost use Rattle.kernel_machine.specs.Fit.{IsFitMachine};

use crate::machine::{Event, Frame, Machine};
use crate::parts::present;
use crate::task::Part;
use kernel_meaning::{EvalError, Stack, Value};
use kernel_plans::{Class, branch_at, enter, has_kind};
use maxj_syntax::NodeKind;
use mx_base::{List, Text};
use std::alloc::Global;
use std::mem;

// How deep calls may stand, from the constructor.
const DEEPEST: usize = 64;

impl Machine {
    // The statements of a method or constructor begin.
    #[tactic(auto, unfolding(crate::specs::Going::go, crate::specs::Going::back_of))]
    pub(crate) fn body(&mut self, class: &Class<'_>, block: Part) -> Result<Event, EvalError>
        requires fit { IsFitMachine class.now self.old }
        ensures does { Leads class.now (block_of (standing class.now self.old)
            (tree_of class.now.cells block) self.old.state (after class.now self.old)
            (leaving class.now self.old)) result self.new }
        ensures falls { CostsBelow class.now (idle class.now self.old + 17) result self.new }
        ensures fit { OnOk result (IsFitMachine class.now self.new) }
    {
        let statements = branch_at(class.tree(), block);
        match statements.kind {
            NodeKind::Block => self.statements(class, block, 0, 0),
            _ => Err(EvalError::WrongKind(statements.span.from)),
        }
    }

    // The method is left with a value.
    #[tactic(auto, unfolding(crate::specs::Going::go, crate::specs::Going::back_of))]
    pub(crate) fn leave(&mut self, class: &Class<'_>, value: Value) -> Result<Event, EvalError>
        requires value { IsFit value }
        requires fit { IsFitMachine class.now self.old }
        ensures does { Leads class.now (back_of class.now self.old.callers value self.old.state) result self.new }
        ensures falls { CostsBelow class.now (idle class.now self.old + 1) result self.new }
        ensures fit { OnOk result (IsFitMachine class.now self.new) }
    {
        match self.callers.pop() {
            None => Ok(Event::Ended),
            Some(frame) => {
                self.tasks = frame.tasks;
                self.state.variables = frame.variables;
                self.wanted = frame.wanted;
                self.give(class, value)
            }
        }
    }

    // A method of the own class is called.
    pub(crate) fn enter(
        &mut self,
        alloc: Global,
        class: &Class<'_>,
        name: &Text,
        at: u32,
        values: List<Value>,
    ) -> Result<Event, EvalError>
        requires values { AreFit values }
        requires fit { IsFitMachine class.now self.old }
        ensures does { Leads class.now (call_to (library_of class.now.library) (members class.now)
            (64 - length self.old.callers) name.now at values self.old.state
            (rest class.now self.old)) result self.new }
        ensures falls { CostsBelow class.now (idle class.now self.old + 49) result self.new }
        ensures fit { OnOk result (IsFitMachine class.now self.new) }
    {
        let method = match enter(alloc, class, name.as_bytes(), at, values) {
            Ok(method) => method,
            Err(error) => return Err(error),
        };
        if self.callers.len() >= DEEPEST {
            return Err(EvalError::CallDepth(at));
        }
        let tasks = mem::replace(&mut self.tasks, Stack::new(alloc));
        let variables = mem::replace(&mut self.state.variables, method.variables);
        let wanted = mem::replace(&mut self.wanted, method.wanted);
        self.callers.push(Frame {
            tasks,
            variables,
            wanted,
        })?;
        self.body(class, method.block)
    }

    // `return` has its value.
    pub(crate) fn given_back(
        &mut self,
        class: &Class<'_>,
        at: u32,
        value: Value,
    ) -> Result<Event, EvalError>
        requires value { IsFit value }
        requires fit { IsFitMachine class.now self.old }
        ensures does { Leads class.now (used at value self.old.state (λ value state.
            given_back at self.old.wanted value state (leaving class.now self.old))) result
            self.new }
        ensures falls { CostsBelow class.now (idle class.now self.old + 5) result self.new }
        ensures fit { OnOk result (IsFitMachine class.now self.new) }
    {
        let value = present(at, value)?;
        match self.wanted {
            Some(of) if has_kind(of, &value) => self.leave(class, value),
            _ => Err(EvalError::WrongKind(at)),
        }
    }
}
