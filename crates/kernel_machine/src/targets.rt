// The place of an assignment: a variable, and the indices behind it.
ghost use Rattle.std.specs.Prelude.{◌≡◌, ◌<◌, IfSome};
ghost use Rattle.kernel_plans.specs.Trees.{tree_of};
ghost use Rattle.kernel_machine.specs.Positions.{IsPart};
ghost use Rattle.kernel_machine.specs.Followed.{IsTarget};

use crate::parts::{node_at, part};
use crate::task::Part;
use kernel_meaning::{EvalError, Stack};
use kernel_plans::{Branch, Class};
use maxj_syntax::NodeKind;
use std::alloc::Global;

/// A name, and the indices that lead from it to what is set, the first one on top.
#[derive(Drop)]
pub(crate) struct Target<'a> {
    pub named: Branch<'a>,
    pub indices: Stack<Part>,
}

/// Follows the place of an assignment down to its name.
///
/// Its errors are `NoMemory` and `WrongKind`.
pub(crate) fn target_of<'a>(
    alloc: Global,
    class: &'a Class<'_>,
    place: Part,
) -> Result<Target<'a>, EvalError>
    ensures { IsTarget class.now.cells (tree_of class.now.cells place) result }
{
    let mut indices = Stack::new(alloc);
    let mut named = node_at(class, place);
    loop {
        match named.kind {
            NodeKind::Index => {
                if named.children.len() != 2 {
                    return Err(EvalError::WrongKind(named.span.from));
                }
                let index = part(&named, 1);
                let Some(base) = first_part(&named) else {
                    return Err(EvalError::WrongKind(0));
                };
                indices.push(index)?;
                named = node_at(class, Some(base));
            }
            NodeKind::Name => return Ok(Target { named, indices }),
            _ => return Err(EvalError::WrongKind(named.span.from)),
        }
    }
}

// The first part of a node, which stands before it.
fn first_part(node: &Branch<'_>) -> Part
    ensures part { IsPart node.now 0 result }
    ensures below { IfSome result (λ n. n < node.now.id) }
{
    node.part(0)
}
