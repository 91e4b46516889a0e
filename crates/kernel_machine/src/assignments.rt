// Assignments: where the value goes, and how it changes what stands there.
ghost use Rattle.std.specs.Prelude.{◌≡◌, ◌+◌, ◌∷◌, OnOk, length, codes, is_some};
ghost use Rattle.std.specs.Str.{bytes_eq};
ghost use Rattle.kernel_rows.specs.Fit.{IsFit};
ghost use Rattle.maxj_syntax.specs.declared.tree.NodeKind.{NodeKind};
ghost use Rattle.kernel_meaning.specs.Names.{place_of};
ghost use Rattle.kernel_meaning.specs.Names as Names;
ghost use Rattle.kernel_meaning.specs.Run.{exec, expr, target};
ghost use Rattle.kernel_meaning.specs.Answer.{used};
ghost use Rattle.kernel_meaning.specs.Ways.{put};
ghost use Rattle.kernel_machine.specs.Left.{
  set_at,
  stepped_at,
  assign_at,
  resolve_at,
  indexed_at,
  combine_at,
  word_of,
};
ghost use Rattle.kernel_plans.specs.Trees.{tree_of, branch_tree};
ghost use Rattle.kernel_machine.specs.Going.{Leads, standing, rest, after, leaving};
ghost use Rattle.kernel_machine.specs.Falls.{CostsBelow, idle};
ghost use Rattle.kernel_machine.specs.Fit.{IsFitMachine};

use crate::machine::{Event, Machine};
use crate::parts::{name_of, node_at, part, present};
use crate::spots::{content_set, index_spot, store, type_of};
use crate::targets::target_of;
use crate::task::{Part, Task};
use kernel_meaning::{EvalError, Spot, Stack, State, Value};
use kernel_plans::{Branch, Class, has_kind, variable};
use kernel_rows::{combined, stepped};
use maxj_syntax::NodeKind;
use std::alloc::Global;

// The sign of an assignment without an operator.
const PLAIN: &[u8] = b"=";

impl Machine {
    // An assignment, which is this node.
    #[tactic(auto, unfolding(crate::specs::Going::go, kernel_meaning::specs::Run::expr))]
    pub(crate) fn set(
        &mut self,
        alloc: Global,
        class: &Class<'_>,
        node: Part,
        statement: &Branch<'_>,
    ) -> Result<Event, EvalError>
        requires tree { tree_of class.now.cells node ≡ branch_tree class.now.cells statement.now }
        requires kind { statement.now.kind ≡ NodeKind.Set }
        requires fit { IsFitMachine class.now self.old }
        ensures does { Leads class.now (exec (standing class.now self.old)
            (branch_tree class.now.cells statement.now) self.old.state
            (after class.now self.old) (leaving class.now self.old)) result self.new }
        ensures falls { CostsBelow class.now (idle class.now self.old) result self.new }
        ensures fit { OnOk result (IsFitMachine class.now self.new) }
    {
        let at = statement.span.from;
        if statement.children.len() == 0 {
            return Err(EvalError::WrongKind(at));
        }
        if statement.children.len() > 2 {
            return Err(EvalError::WrongKind(at));
        }
        let place = part(statement, 0);
        if !self.count() {
            return Err(EvalError::StepLimit);
        }
        self.target(alloc, class, node, at, place)
    }

    // The place of an assignment is followed down to its variable, and then its indices are.
    #[tactic(auto, unfolding(crate::specs::Going::go, kernel_meaning::specs::Run::expr))]
    fn target(
        &mut self,
        alloc: Global,
        class: &Class<'_>,
        node: Part,
        at: u32,
        place: Part,
    ) -> Result<Event, EvalError>
        requires at { at ≡ place_of (tree_of class.now.cells node) }
        requires fit { IsFitMachine class.now self.old }
        ensures does { Leads class.now (target (standing class.now self.old) at
            (tree_of class.now.cells place) self.old.state
            (λ spot state. set_at (standing class.now self.old) (tree_of class.now.cells node) spot
            state (after class.now self.old))) result self.new }
        ensures falls { CostsBelow class.now (idle class.now self.old + 33) result self.new }
        ensures fit { OnOk result (IsFitMachine class.now self.new) }
    {
        let target = match target_of(alloc, class, place) {
            Ok(target) => target,
            Err(error) => return Err(error),
        };
        let named = target.named;
        if !is_variable(named.word, &self.state) {
            return Err(EvalError::UnknownName(named.span.from));
        }
        let name = name_of(alloc, named.word)?;
        self.resolve(alloc, class, node, Spot::Variable(name), target.indices)
    }

    // Indices that are left lead from a spot to the one that the assignment sets.
    #[tactic(auto, unfolding(crate::specs::Going::go, kernel_meaning::specs::Run::expr))]
    fn resolve(
        &mut self,
        alloc: Global,
        class: &Class<'_>,
        node: Part,
        spot: Spot,
        mut pending: Stack<Part>,
    ) -> Result<Event, EvalError>
        requires fit { IsFitMachine class.now self.old }
        ensures does { Leads class.now (resolve_at class.now.cells (standing class.now self.old)
            (tree_of class.now.cells node) pending spot self.old.state (after class.now self.old)) result self.new }
        ensures falls { CostsBelow class.now (idle class.now self.old + 33) result self.new }
        ensures fit { OnOk result (IsFitMachine class.now self.new) }
    {
        match pending.pop() {
            Some(index) => self.index_next(alloc, class, node, spot, index, pending),
            None => self.change(alloc, class, node, spot),
        }
    }

    // The next index into the array at a spot is evaluated, before those that are left.
    #[tactic(auto, unfolding(crate::specs::Going::go, kernel_meaning::specs::Run::expr))]
    fn index_next(
        &mut self,
        alloc: Global,
        class: &Class<'_>,
        node: Part,
        spot: Spot,
        index: Part,
        pending: Stack<Part>,
    ) -> Result<Event, EvalError>
        requires fit { IsFitMachine class.now self.old }
        ensures does { Leads class.now (resolve_at class.now.cells (standing class.now self.old)
            (tree_of class.now.cells node) (index ∷ pending) spot self.old.state
            (after class.now self.old)) result self.new }
        ensures falls { CostsBelow class.now (idle class.now self.old + 33) result self.new }
        ensures fit { OnOk result (IsFitMachine class.now self.new) }
    {
        let at = node_at(class, node).span.from;
        let array = content_set(alloc, &self.state, at, &spot)?;
        let task = Task::Indexed {
            node,
            array,
            pending,
        };
        self.evaluate_for(class, task, index)
    }

    // The place of an assignment has an index.
    #[tactic(auto, unfolding(crate::specs::Going::go, kernel_meaning::specs::Run::expr))]
    pub(crate) fn indexed(
        &mut self,
        alloc: Global,
        class: &Class<'_>,
        node: Part,
        array: Value,
        pending: Stack<Part>,
        value: Value,
    ) -> Result<Event, EvalError>
        requires fit { IsFitMachine class.now self.old }
        ensures does { Leads class.now (indexed_at class.now.cells (standing class.now self.old)
            (tree_of class.now.cells node) array pending value self.old.state
            (after class.now self.old)) result self.new }
        ensures falls { CostsBelow class.now (idle class.now self.old + 33) result self.new }
        ensures fit { OnOk result (IsFitMachine class.now self.new) }
    {
        let at = node_at(class, node).span.from;
        match index_spot(at, &array, value, &self.state) {
            Ok(spot) => self.resolve(alloc, class, node, spot, pending),
            Err(error) => Err(error),
        }
    }

    // What stands at a spot is set by an assignment.
    #[tactic(auto, unfolding(crate::specs::Going::go, kernel_meaning::specs::Run::expr))]
    fn change(
        &mut self,
        alloc: Global,
        class: &Class<'_>,
        node: Part,
        spot: Spot,
    ) -> Result<Event, EvalError>
        requires fit { IsFitMachine class.now self.old }
        ensures does { Leads class.now (set_at (standing class.now self.old)
            (tree_of class.now.cells node) spot self.old.state (after class.now self.old))
            result self.new }
        ensures falls { CostsBelow class.now (idle class.now self.old + 33) result self.new }
        ensures fit { OnOk result (IsFitMachine class.now self.new) }
    {
        let statement = node_at(class, node);
        let parts = statement.children.len();
        if parts == 1 {
            return self.step_by_one(alloc, class, &statement, spot);
        }
        if parts == 2 {
            return self.set_by(alloc, class, node, &statement, spot);
        }
        Err(EvalError::WrongKind(statement.span.from))
    }

    // `++` and `--`.
    #[tactic(auto, unfolding(crate::specs::Going::go, kernel_meaning::specs::Run::expr))]
    fn step_by_one(
        &mut self,
        alloc: Global,
        class: &Class<'_>,
        statement: &Branch<'_>,
        spot: Spot,
    ) -> Result<Event, EvalError>
        requires fit { IsFitMachine class.now self.old }
        ensures does { Leads class.now (stepped_at statement.now.span.from statement.now.word.now
            spot self.old.state (after class.now self.old)) result self.new }
        ensures falls { CostsBelow class.now (idle class.now self.old + 33) result self.new }
        ensures fit { OnOk result (IsFitMachine class.now self.new) }
    {
        let at = statement.span.from;
        let old = content_set(alloc, &self.state, at, &spot)?;
        let done = stepped(alloc, statement.word, at, old, &mut self.state)?;
        self.tasks.push(Task::Store { at, spot })?;
        self.settle(class, done)
    }

    // An assignment with a value, which is evaluated; before it, what stood at the spot is read
    // where the sign has an operator.
    #[tactic(auto, unfolding(crate::specs::Going::go, kernel_meaning::specs::Run::expr))]
    fn set_by(
        &mut self,
        alloc: Global,
        class: &Class<'_>,
        node: Part,
        statement: &Branch<'_>,
        spot: Spot,
    ) -> Result<Event, EvalError>
        requires tree { tree_of class.now.cells node ≡ branch_tree class.now.cells statement.now }
        requires two { length statement.now.children.now ≡ 2 }
        requires fit { IsFitMachine class.now self.old }
        ensures does { Leads class.now (set_at (standing class.now self.old)
            (tree_of class.now.cells node) spot self.old.state (after class.now self.old))
            result self.new }
        ensures falls { CostsBelow class.now (idle class.now self.old + 33) result self.new }
        ensures fit { OnOk result (IsFitMachine class.now self.new) }
    {
        let value = part(statement, 1);
        if is_plain(statement.word) {
            return self.assign(class, statement.span.from, spot, value);
        }
        match content_set(alloc, &self.state, statement.span.from, &spot) {
            Ok(old) => self.read_before(class, node, spot, old, value),
            Err(error) => Err(error),
        }
    }

    // `=` waits for its value.
    #[tactic(auto, unfolding(crate::specs::Going::go, kernel_meaning::specs::Run::expr))]
    fn assign(
        &mut self,
        class: &Class<'_>,
        at: u32,
        spot: Spot,
        value: Part,
    ) -> Result<Event, EvalError>
        requires fit { IsFitMachine class.now self.old }
        ensures does { Leads class.now (assign_at (standing class.now self.old) at
            (tree_of class.now.cells value) spot self.old.state (after class.now self.old)) result
            self.new }
        ensures falls { CostsBelow class.now (idle class.now self.old + 33) result self.new }
        ensures fit { OnOk result (IsFitMachine class.now self.new) }
    {
        self.evaluate_for(class, Task::Assign { at, spot }, value)
    }

    // A compound assignment, with what stood at the spot, waits for its value.
    #[tactic(auto, unfolding(crate::specs::Going::go, kernel_meaning::specs::Run::expr))]
    fn read_before(
        &mut self,
        class: &Class<'_>,
        node: Part,
        spot: Spot,
        old: Value,
        value: Part,
    ) -> Result<Event, EvalError>
        requires old { IsFit old }
        requires fit { IsFitMachine class.now self.old }
        ensures does { Leads class.now (expr (standing class.now self.old)
            (tree_of class.now.cells value) self.old.state
            (λ value state. combine_at (place_of (tree_of class.now.cells node))
            (word_of (tree_of class.now.cells node)) old spot value state (after class.now self.old)))
            result self.new }
        ensures falls { CostsBelow class.now (idle class.now self.old + 33) result self.new }
        ensures fit { OnOk result (IsFitMachine class.now self.new) }
    {
        self.evaluate_for(class, Task::Combine { node, old, spot }, value)
    }

    // A compound assignment has its value.
    #[tactic(auto, unfolding(crate::specs::Going::go, kernel_meaning::specs::Run::expr))]
    pub(crate) fn combine(
        &mut self,
        alloc: Global,
        class: &Class<'_>,
        node: Part,
        old: Value,
        spot: Spot,
        value: Value,
    ) -> Result<Event, EvalError>
        requires old { IsFit old }
        requires value { IsFit value }
        requires fit { IsFitMachine class.now self.old }
        ensures does { Leads class.now (combine_at (place_of (tree_of class.now.cells node))
            (word_of (tree_of class.now.cells node)) old spot value self.old.state
            (after class.now self.old)) result self.new }
        ensures falls { CostsBelow class.now (idle class.now self.old + 22) result self.new }
        ensures fit { OnOk result (IsFitMachine class.now self.new) }
    {
        let statement = node_at(class, node);
        let at = statement.span.from;
        self.tasks.push(Task::Store { at, spot })?;
        let value = present(at, value)?;
        let done = combined(alloc, statement.word, at, &[old, value], &mut self.state)?;
        self.settle(class, done)
    }

    // A value is given to a spot of its type.
    #[tactic(auto, unfolding(crate::specs::Going::go, kernel_meaning::specs::Run::expr))]
    pub(crate) fn put(
        &mut self,
        alloc: Global,
        class: &Class<'_>,
        at: u32,
        spot: Spot,
        value: Value,
    ) -> Result<Event, EvalError>
        requires value { IsFit value }
        requires fit { IsFitMachine class.now self.old }
        ensures does { Leads class.now (put at spot value self.old.state (after class.now self.old))
            result self.new }
        ensures falls { CostsBelow class.now (idle class.now self.old + 5) result self.new }
        ensures fit { OnOk result (IsFitMachine class.now self.new) }
    {
        let Some(of) = type_of(&self.state, &spot) else {
            return Err(EvalError::UnknownName(at));
        };
        if !has_kind(of, &value) {
            return Err(EvalError::WrongKind(at));
        }
        store(alloc, &mut self.state, spot, value);
        self.give(class, Value::Nothing)
    }

    // `=` has its value.
    #[tactic(auto, unfolding(crate::specs::Going::go, kernel_meaning::specs::Run::expr))]
    pub(crate) fn assigned(
        &mut self,
        alloc: Global,
        class: &Class<'_>,
        at: u32,
        spot: Spot,
        value: Value,
    ) -> Result<Event, EvalError>
        requires value { IsFit value }
        requires fit { IsFitMachine class.now self.old }
        ensures does { Leads class.now (used at value self.old.state
            (λ value state. put at spot value state (after class.now self.old))) result self.new }
        ensures falls { CostsBelow class.now (idle class.now self.old + 5) result self.new }
        ensures fit { OnOk result (IsFitMachine class.now self.new) }
    {
        let value = present(at, value)?;
        self.put(alloc, class, at, spot, value)
    }
}

// Whether the sign of an assignment has no operator.
fn is_plain(sign: &[u8]) -> bool
    ensures { result ≡ bytes_eq sign.now (codes "=") }
{
    sign == PLAIN
}

// Whether a word is the name of a variable.
fn is_variable(name: &[u8], state: &State) -> bool
    ensures { result ≡ is_some (Names.variable name.now state.now) }
{
    variable(name, state).is_some()
}
