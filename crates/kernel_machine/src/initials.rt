// Local variables, and initial values.
ghost use Rattle.std.specs.Prelude.{◌≡◌, ◌+◌, OnOk, suc, length, is_some};
ghost use Rattle.kernel_meaning.specs.Names as Names;
ghost use Rattle.kernel_rows.specs.Fit.{IsFit, AreFit};
ghost use Rattle.kernel_rows.specs.Kept.{IsKept};
ghost use Rattle.kernel_machine.specs.Answers.{IsIntroduced};
ghost use Rattle.maxj_syntax.specs.declared.tree.NodeKind.{NodeKind};
ghost use Rattle.kernel_meaning.specs.Run.{exec, initial};
ghost use Rattle.kernel_machine.specs.Left.{
  from_place,
  braces_run,
  value_run,
  elements_left,
  element_at,
  initial_at,
};
ghost use Rattle.kernel_machine.specs.Falls.{elements_weight};
ghost use Rattle.kernel_plans.specs.Trees.{tree_of, trees_of, branch_tree};
ghost use Rattle.kernel_machine.specs.Going.{Leads, standing, rest, after, leaving};
ghost use Rattle.kernel_machine.specs.Falls.{CostsBelow, idle};
ghost use Rattle.kernel_machine.specs.Fit.{IsFitMachine, HaveSoMany};

use crate::machine::{Event, Machine, Now};
use crate::parts::{name_of, node_at, of_type, part, type_at};
use crate::spots::store;
use crate::task::{Part, Task};
use kernel_meaning::{Binding, Bindings, Declared, EvalError, Spot, State, Value};
use kernel_plans::{Branch, Class};
use maxj_syntax::NodeKind;
use mx_base::List;
use std::alloc::Global;

// The longest array.
const LONGEST: usize = 65536;

impl Machine {
    // A local variable, which stands before its initial value is evaluated.
    #[tactic(auto, unfolding(crate::specs::Going::go, kernel_meaning::specs::Run::expr))]
    pub(crate) fn local(
        &mut self,
        alloc: Global,
        class: &Class<'_>,
        statement: &Branch<'_>,
    ) -> Result<Event, EvalError>
        requires kind { statement.now.kind ≡ NodeKind.Local }
        requires fit { IsFitMachine class.now self.old }
        ensures does { Leads class.now (exec (standing class.now self.old)
            (branch_tree class.now.cells statement.now) self.old.state
            (after class.now self.old) (leaving class.now self.old)) result self.new }
        ensures falls { CostsBelow class.now (idle class.now self.old) result self.new }
        ensures fit { OnOk result (IsFitMachine class.now self.new) }
    {
        let at = statement.span.from;
        if statement.children.len() == 0 {
            return Err(EvalError::WrongKind(at));
        }
        let kind = part(statement, 0);
        if !self.count() {
            return Err(EvalError::StepLimit);
        }
        let of = match type_at(class, kind) {
            Ok(of) => of,
            Err(place) => return Err(EvalError::UnknownName(place)),
        };
        match introduce(alloc, at, statement.word, of, &mut self.state) {
            Ok(()) => {
                let spot = Spot::Variable(name_of(alloc, statement.word)?);
                self.initial(class, at, of, spot, statement)
            }
            Err(error) => Err(error),
        }
    }

    // What is at a spot waits for the initial value that stands behind the type of a declaration,
    // where one stands there.
    #[tactic(auto, unfolding(crate::specs::Going::go, kernel_meaning::specs::Run::expr))]
    pub(crate) fn initial(
        &mut self,
        class: &Class<'_>,
        at: u32,
        of: Declared,
        spot: Spot,
        declaration: &Branch<'_>,
    ) -> Result<Event, EvalError>
        requires fit { IsFitMachine class.now self.old }
        ensures does { Leads class.now (initial (standing class.now self.old) at of spot
            (from_place 1 (trees_of class.now.cells declaration.now.id
            declaration.now.children.now)) self.old.state (after class.now self.old)) result self.new }
        ensures falls { CostsBelow class.now (idle class.now self.old + 23) result self.new }
        ensures fit { OnOk result (IsFitMachine class.now self.new) }
    {
        if declaration.children.len() < 2 {
            return self.give(class, Value::Nothing);
        }
        let value = part(declaration, 1);
        self.tasks.push(Task::Initial { at, of, spot })?;
        self.value_of(class, value, of)
    }

    // What stands for a value of this type is evaluated, or braces are filled.
    #[tactic(auto, unfolding(crate::specs::Going::go, kernel_meaning::specs::Run::expr))]
    fn value_of(&mut self, class: &Class<'_>, value: Part, of: Declared) -> Result<Event, EvalError>
        requires fit { IsFitMachine class.now self.old }
        ensures does { Leads class.now (value_run (standing class.now self.old) of
            (tree_of class.now.cells value) self.old.state (rest class.now self.old)) result
            self.new }
        ensures falls { CostsBelow class.now (idle class.now self.old + 7) result self.new }
        ensures fit { OnOk result (IsFitMachine class.now self.new) }
    {
        match node_at(class, value).kind {
            NodeKind::Braces => {
                self.now = Now::Braces(value, of);
                Ok(Event::On)
            }
            _ => {
                self.now = Now::Eval(value);
                Ok(Event::On)
            }
        }
    }

    // Braces stand for an array of this type, and go on with their first element.
    #[tactic(auto, unfolding(crate::specs::Going::go, kernel_meaning::specs::Run::expr))]
    pub(crate) fn braces(
        &mut self,
        alloc: Global,
        class: &Class<'_>,
        node: Part,
        of: Declared,
    ) -> Result<Event, EvalError>
        requires fit { IsFitMachine class.now self.old }
        ensures does { Leads class.now (braces_run (standing class.now self.old) of
            (tree_of class.now.cells node) self.old.state (rest class.now self.old)) result self.new }
        ensures falls { CostsBelow class.now (idle class.now self.old + 6) result self.new }
        ensures fit { OnOk result (IsFitMachine class.now self.new) }
    {
        let braces = node_at(class, node);
        let at = braces.span.from;
        let count = braces.children.len();
        let Some(rank) = of.rank.checked_sub(1) else {
            return Err(EvalError::WrongKind(at));
        };
        if count > LONGEST {
            return Err(EvalError::ArrayRange(at));
        }
        let steps = count as u32;
        if steps > self.state.left {
            return Err(EvalError::StepLimit);
        }
        self.state.left -= steps;
        let inner = Declared {
            base: of.base,
            rank,
        };
        self.elements(class, node, inner, List::new(alloc))
    }

    // Braces go on with the element behind these, or are the array of them.
    #[tactic(auto, unfolding(crate::specs::Going::go, kernel_meaning::specs::Run::expr))]
    pub(crate) fn elements(
        &mut self,
        class: &Class<'_>,
        node: Part,
        of: Declared,
        values: List<Value>,
    ) -> Result<Event, EvalError>
        requires values { AreFit values }
        requires many { HaveSoMany class.now node (length values) }
        requires fit { IsFitMachine class.now self.old }
        ensures does { Leads class.now (elements_left (standing class.now self.old) of
            (tree_of class.now.cells node) (length values) values self.old.state
            (rest class.now self.old)) result self.new }
        ensures falls { CostsBelow class.now (idle class.now self.old + 5
            + elements_weight class.now node (length values)) result self.new }
        ensures fit { OnOk result (IsFitMachine class.now self.new) }
    {
        let braces = node_at(class, node);
        let place = values.len();
        if place >= braces.children.len() {
            let Ok(number) = u32::try_from(self.state.arrays.len()) else {
                return Err(EvalError::NoMemory);
            };
            self.state.arrays.push(values)?;
            return self.give(class, Value::Array { number, of });
        }
        let element = part(&braces, place);
        self.tasks.push(Task::Elements { node, of, values })?;
        self.value_of(class, element, of)
    }

    // An element in braces has its value.
    #[tactic(auto, unfolding(crate::specs::Going::go, kernel_meaning::specs::Run::expr))]
    pub(crate) fn element_given(
        &mut self,
        class: &Class<'_>,
        node: Part,
        of: Declared,
        mut values: List<Value>,
        value: Value,
    ) -> Result<Event, EvalError>
        requires values { AreFit values }
        requires value { IsFit value }
        requires many { HaveSoMany class.now node (suc (length values)) }
        requires fit { IsFitMachine class.now self.old }
        ensures does { Leads class.now (element_at class.now.cells (standing class.now self.old)
            node of values value self.old.state (rest class.now self.old)) result self.new }
        ensures falls { CostsBelow class.now (idle class.now self.old + 5
            + elements_weight class.now node (suc (length values))) result self.new }
        ensures fit { OnOk result (IsFitMachine class.now self.new) }
    {
        let at = node_at(class, node).span.from;
        values.push(of_type(at, of, value)?)?;
        self.elements(class, node, of, values)
    }

    // What is at a spot gets its initial value.
    #[tactic(auto, unfolding(crate::specs::Going::go, kernel_meaning::specs::Run::expr))]
    pub(crate) fn initial_given(
        &mut self,
        alloc: Global,
        class: &Class<'_>,
        at: u32,
        of: Declared,
        spot: Spot,
        value: Value,
    ) -> Result<Event, EvalError>
        requires value { IsFit value }
        requires fit { IsFitMachine class.now self.old }
        ensures does { Leads class.now (initial_at at of spot value self.old.state
            (after class.now self.old)) result self.new }
        ensures falls { CostsBelow class.now (idle class.now self.old + 5) result self.new }
        ensures fit { OnOk result (IsFitMachine class.now self.new) }
    {
        let value = of_type(at, of, value)?;
        store(alloc, &mut self.state, spot, value);
        self.give(class, Value::Nothing)
    }
}

// A variable of this name and type stands, without a value, where none of its name did.
fn introduce(
    alloc: Global,
    at: u32,
    name: &[u8],
    of: Declared,
    state: &mut State,
) -> Result<(), EvalError>
    requires kept { IsKept state.old }
    ensures stands { IsIntroduced at name.now of state.old result state.new }
    ensures kept { OnOk result (IsKept state.new) }
    ensures left { state.new.left ≡ state.old.left }
{
    if is_bound(name, &state.variables) {
        return Err(EvalError::NameTwice(at));
    }
    let name = name_of(alloc, name)?;
    let value = Value::Nothing;
    state.variables.push(alloc, Binding { name, of, value })?;
    Ok(())
}

// Whether a variable of this name stands.
fn is_bound(name: &[u8], variables: &Bindings) -> bool
    ensures { result ≡ is_some (Names.bound_in name.now variables.now) }
{
    variables.newest(name).is_some()
}
