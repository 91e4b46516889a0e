// The fields of a class, before the block of its constructor.
ghost use Rattle.std.specs.Prelude.{◌≡◌, ◌+◌, ◌*◌, ◌-◌, ◌<◌, ◌≤◌, OnOk, length};
ghost use Rattle.kernel_rows.specs.Kept.{AreBoundFit};
ghost use Rattle.kernel_meaning.specs.Constructors.{set_fields};
ghost use Rattle.kernel_meaning.specs.Plans.{number_of_trees};
ghost use Rattle.kernel_meaning.specs.Run.{block_of};
ghost use Rattle.kernel_plans.specs.Classes.{members};
ghost use Rattle.kernel_plans.specs.Trees.{tree_of, branch_tree};
ghost use Rattle.maxj_syntax.specs.Tree.{Cons};
ghost use Rattle.maxj_syntax.specs.declared.tree.NodeKind.{NodeKind};
ghost use Rattle.kernel_machine.specs.Answers.{IsField, IsNextField};
ghost use Rattle.kernel_machine.specs.Left.{fields_left, from_place};
ghost use Rattle.kernel_machine.specs.Going.{Leads, standing, after, leaving};
ghost use Rattle.kernel_machine.specs.Falls.{CostsBelow, idle};
ghost use Rattle.kernel_machine.specs.Fit.{IsFitMachine};

use crate::machine::{Event, Machine};
use crate::parts::{node_at, part, type_at};
use crate::task::{Part, Task};
use kernel_meaning::{Bindings, EvalError, Spot};
use kernel_plans::{Branch, Class};
use maxj_syntax::NodeKind;

impl Machine {
    // The next field from a place on, before which so many stand, gets its initial value; behind the
    // last one the constructor's block begins, with these variables.
    #[tactic(auto, unfolding(crate::specs::Going::go, kernel_meaning::specs::Run::expr))]
    pub(crate) fn fields(
        &mut self,
        class: &Class<'_>,
        from: usize,
        before: usize,
        body: Part,
        variables: Bindings,
    ) -> Result<Event, EvalError>
        requires many { before ≤ from }
        requires variables { AreBoundFit variables }
        requires fit { IsFitMachine class.now self.old }
        ensures does { Leads class.now (fields_left class.now (standing class.now self.old) from before
            body variables self.old.state (after class.now self.old) (leaving class.now self.old))
            result self.new }
        ensures falls { CostsBelow class.now (idle class.now self.old + 18
            + 32 * (number_of_trees (members class.now) - from)) result self.new }
        ensures fit { OnOk result (IsFitMachine class.now self.new) }
    {
        let Some((behind, field)) = next_field(class, from) else {
            self.state.variables = variables;
            return self.body(class, body);
        };
        self.field(class, behind, before, body, variables, &field)
    }

    // A field, before this place of the members and behind so many other fields, gets its initial
    // value.
    #[tactic(auto, unfolding(crate::specs::Going::go, kernel_meaning::specs::Run::expr))]
    fn field(
        &mut self,
        class: &Class<'_>,
        behind: usize,
        before: usize,
        body: Part,
        variables: Bindings,
        field: &Branch<'_>,
    ) -> Result<Event, EvalError>
        requires kind { field.now.kind ≡ NodeKind.Field }
        requires typed { 0 < length field.now.children.now }
        requires many { before < behind }
        requires variables { AreBoundFit variables }
        requires fit { IsFitMachine class.now self.old }
        ensures does { Leads class.now (set_fields (standing class.now self.old) before
            (Cons (branch_tree class.now.cells field.now) (from_place behind
            (members class.now))) self.old.state (λ state. block_of (standing class.now self.old)
            (tree_of class.now.cells body) (record state { variables = variables })
            (after class.now self.old) (leaving class.now self.old))) result self.new }
        ensures falls { CostsBelow class.now (idle class.now self.old + 50
            + 32 * (number_of_trees (members class.now) - behind)) result self.new }
        ensures fit { OnOk result (IsFitMachine class.now self.new) }
    {
        let of = match type_at(class, part(field, 0)) {
            Ok(of) => of,
            Err(place) => return Err(EvalError::UnknownName(place)),
        };
        self.tasks.push(Task::Fields {
            place: behind,
            before: before + 1,
            body,
            variables,
        })?;
        self.initial(class, field.span.from, of, Spot::Field(before), field)
    }
}

// The next field from a place of the members on, with the place behind it.
fn next_field<'a>(class: &'a Class<'_>, from: usize) -> Option<(usize, Branch<'a>)>
    ensures { IsNextField class.now from result }
{
    let node = node_at(class, Some(class.node()));
    let count = node.children.len();
    let mut place = from;
    while place < count {
        let member = node_at(class, part(&node, place));
        place += 1;
        if is_field(&member) {
            return Some((place, member));
        }
    }
    None
}

// Whether a member is a field, with its type.
fn is_field(member: &Branch<'_>) -> bool
    ensures { IsField member.now result }
{
    match member.kind {
        NodeKind::Field => member.children.len() > 0,
        _ => false,
    }
}
