// The kernels that a manager adds.
ghost use Rattle.std.specs.Prelude.{◌≡◌, ◌+◌, OnOk};
ghost use Rattle.kernel_rows.specs.Fit.{AreFit};
ghost use Rattle.maxj_syntax.specs.declared.tree.NodeKind.{NodeKind};
ghost use Rattle.maxj_syntax.specs.Ranges.{AreInRange};
ghost use Rattle.kernel_meaning.specs.Run.{addition, named};
ghost use Rattle.kernel_machine.specs.Answers.{IsNamed, NamesKernel, are_settings};
ghost use Rattle.kernel_machine.specs.Left.{added, with_name, new_at, named_by};
ghost use Rattle.kernel_plans.specs.Classes.{members, library_of};
ghost use Rattle.kernel_plans.specs.Trees.{tree_of, trees_of, branch_tree};
ghost use Rattle.kernel_machine.specs.Going.{Leads, standing, rest};
ghost use Rattle.kernel_machine.specs.Falls.{CostsBelow, idle};
ghost use Rattle.kernel_machine.specs.Fit.{IsFitMachine};

use crate::machine::{Event, Machine};
use crate::parts::{node_at, part};
use crate::task::{Part, Purpose, Task};
use kernel_calls::is_port_name;
use kernel_meaning::{EvalError, Row, Value};
use kernel_plans::{Branch, Class};
use kernel_rows::kernel_added;
use maxj_syntax::NodeKind;
use mx_base::{List, Text};
use std::alloc::Global;

// What stands for the first argument of a kernel.
const SETTINGS: &[u8] = b"makeKernelParameters";

impl Machine {
    // `addKernel`, of a new object.
    #[tactic(auto, unfolding(crate::specs::Going::go, kernel_meaning::specs::Run::expr))]
    pub(crate) fn add_kernel(
        &mut self,
        alloc: Global,
        class: &Class<'_>,
        expression: &Branch<'_>,
    ) -> Result<Event, EvalError>
        requires fit { IsFitMachine class.now self.old }
        requires within { AreInRange class.now.cells }
        ensures does { Leads class.now (addition (standing class.now self.old) expression.now.span.from
            (trees_of class.now.cells expression.now.id expression.now.children.now)
            self.old.state (rest class.now self.old)) result self.new }
        ensures falls { CostsBelow class.now (idle class.now self.old + 65) result self.new }
        ensures fit { OnOk result (IsFitMachine class.now self.new) }
    {
        let at = expression.span.from;
        if expression.children.len() != 1 {
            return Err(EvalError::WrongKind(at));
        }
        let node = part(expression, 0);
        let made = node_at(class, node);
        match made.kind {
            NodeKind::New => self.new_kernel(alloc, class, node, &made),
            _ => Err(EvalError::WrongKind(at)),
        }
    }

    // The new object of a kernel, which is this node.
    #[tactic(auto, unfolding(crate::specs::Going::go, kernel_meaning::specs::Run::expr))]
    fn new_kernel(
        &mut self,
        alloc: Global,
        class: &Class<'_>,
        node: Part,
        made: &Branch<'_>,
    ) -> Result<Event, EvalError>
        requires tree { tree_of class.now.cells node ≡ branch_tree class.now.cells made.now }
        requires fit { IsFitMachine class.now self.old }
        requires within { AreInRange class.now.cells }
        ensures does { Leads class.now (new_at (standing class.now self.old) (tree_of class.now.cells node)
            self.old.state (rest class.now self.old)) result self.new }
        ensures falls { CostsBelow class.now (idle class.now self.old) result self.new }
        ensures fit { OnOk result (IsFitMachine class.now self.new) }
    {
        let at = made.span.from;
        if !self.count() {
            return Err(EvalError::StepLimit);
        }
        let Some(number) = class.kernel_class(made.word) else {
            return Err(EvalError::UnknownName(at));
        };
        if made.children.len() == 0 {
            return Err(EvalError::UnknownName(at));
        }
        let first = part(made, 0);
        let settings = node_at(class, first);
        if names_kernel(class, &settings) {
            return self.name_kernel(alloc, class, node, number, first, &settings);
        }
        let Ok(count) = u32::try_from(made.children.len()) else {
            return Err(EvalError::NoMemory);
        };
        let purpose = Purpose::ForRow(Row::WrongArguments);
        self.operands(alloc, class, purpose, at, node, 0, count, List::new(alloc))
    }

    // `makeKernelParameters` with the name of the kernel.
    #[tactic(auto, unfolding(crate::specs::Going::go, kernel_meaning::specs::Run::expr))]
    fn name_kernel(
        &mut self,
        alloc: Global,
        class: &Class<'_>,
        node: Part,
        number: u32,
        first: Part,
        settings: &Branch<'_>,
    ) -> Result<Event, EvalError>
        requires tree { tree_of class.now.cells first ≡ branch_tree class.now.cells settings.now }
        requires fit { IsFitMachine class.now self.old }
        requires within { AreInRange class.now.cells }
        ensures does { Leads class.now (named_by (standing class.now self.old) (tree_of class.now.cells node)
            number settings.now.span.from
            (trees_of class.now.cells settings.now.id settings.now.children.now) self.old.state
            (rest class.now self.old)) result self.new }
        ensures falls { CostsBelow class.now (idle class.now self.old) result self.new }
        ensures fit { OnOk result (IsFitMachine class.now self.new) }
    {
        let at = settings.span.from;
        if !self.count() {
            return Err(EvalError::StepLimit);
        }
        if settings.children.len() != 1 {
            return Err(EvalError::UnknownName(at));
        }
        let purpose = Purpose::ForKernelName {
            node,
            class: number,
        };
        self.operands(alloc, class, purpose, at, first, 0, 1, List::new(alloc))
    }

    // The kernel that is added has its name; then come its arguments.
    #[tactic(auto, unfolding(crate::specs::Going::go, kernel_meaning::specs::Run::expr))]
    pub(crate) fn kernel_named(
        &mut self,
        alloc: Global,
        class: &Class<'_>,
        node: Part,
        number: u32,
        at: u32,
        values: List<Value>,
    ) -> Result<Event, EvalError>
        requires values { AreFit values }
        requires fit { IsFitMachine class.now self.old }
        requires within { AreInRange class.now.cells }
        ensures does { Leads class.now (named at values self.old.state
            (λ name state. with_name (standing class.now self.old) (tree_of class.now.cells node)
            number name state (rest class.now self.old))) result self.new }
        ensures falls { CostsBelow class.now (idle class.now self.old + 49) result self.new }
        ensures fit { OnOk result (IsFitMachine class.now self.new) }
    {
        let name = match kernel_name(alloc, at, values.as_slice()) {
            Ok(name) => name,
            Err(error) => return Err(error),
        };
        let made = node_at(class, node);
        let at = made.span.from;
        let values = List::new(alloc);
        if made.children.len() < 2 {
            return self.kernel_made(alloc, class, number, &name, at, values);
        }
        let Ok(count) = u32::try_from(made.children.len() - 2) else {
            return Err(EvalError::NoMemory);
        };
        let purpose = Purpose::ForKernel {
            class: number,
            name,
        };
        let task = Task::Operands {
            node,
            at,
            place: 2,
            count,
            purpose,
            values,
        };
        self.evaluate_for(class, task, part(&made, 1))
    }

    // The kernel that is added has its arguments.
    #[tactic(auto, unfolding(crate::specs::Going::go, kernel_meaning::specs::Run::expr))]
    pub(crate) fn kernel_made(
        &mut self,
        alloc: Global,
        class: &Class<'_>,
        number: u32,
        name: &Text,
        at: u32,
        values: List<Value>,
    ) -> Result<Event, EvalError>
        requires values { AreFit values }
        requires fit { IsFitMachine class.now self.old }
        ensures does { Leads class.now (added at number name.now values self.old.state (rest class.now self.old)) result self.new }
        ensures falls { CostsBelow class.now (idle class.now self.old + 5) result self.new }
        ensures fit { OnOk result (IsFitMachine class.now self.new) }
    {
        match kernel_added(alloc, at, name, number, values.as_slice(), &mut self.state) {
            Ok(value) => self.give(class, value),
            Err(error) => Err(error),
        }
    }
}

// Whether an argument is the call that names a kernel.
fn names_kernel(class: &Class<'_>, argument: &Branch<'_>) -> bool
    ensures { NamesKernel (members class.now) argument.now result }
{
    match argument.kind {
        NodeKind::Call => are_settings(class, argument.word),
        _ => false,
    }
}

// Whether a call is `makeKernelParameters`, which no method of the own class hides.
fn are_settings(class: &Class<'_>, word: &[u8]) -> bool
    ensures { result ≡ are_settings (members class.now) word.now }
{
    word == SETTINGS && class.params(word).is_none()
}

// The name of a kernel, which is the one value.
fn kernel_name(alloc: Global, at: u32, values: &[Value]) -> Result<Text, EvalError>
    ensures { IsNamed at values.now result }
{
    let [Value::Str(name)] = values else {
        return Err(EvalError::WrongKind(at));
    };
    if is_port_name(name.as_bytes()) {
        Ok(name.copy(alloc)?)
    } else {
        Err(EvalError::BadPortName(at))
    }
}
