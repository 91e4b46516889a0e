// The links among joins, and that each join ends at a kernel.
ghost use Rattle.std.specs.Prelude.{◌≡◌, ◌≤◌, All, Some, length, slice_get, IsTrue, ◌↔◌, IsSome, OnOk, IfOk, IfErr};
ghost use Rattle.std.specs.List.{AllZip};
ghost use Rattle.kernel_meaning.specs.declared.plan.Join.{Join as OneJoin};
ghost use Rattle.manager_links.specs.Joined.{is_link, AreJoined};
ghost use Rattle.manager_links.specs.Numbers.{IsSlot, AreEnds};
ghost use Rattle.manager_links.specs.Ports.{node_of, type_of};
ghost use Rattle.manager_links.specs.Rules.{IsHostToHost, HasTwoTypes};
ghost use Rattle.manager_links.specs.Steps.{IsReady, IsPortSlot, HaveOneType, SaysHostToHost, SaysTypeDiffers};
ghost use Rattle.manager_links.specs.Terminals.{terminals};

use crate::ends::{Ends, end_name};
use crate::terminals::Slot;
use crate::{LinkEnds, LinkError, PortAt};
use fix_arith::StreamType;
use kernel_meaning::{End, Join, Plan};
use mx_base::List;
use std::alloc::Global;
use stream_graph::{Kernel, NodeId};

/// Tests that each join ends at a kernel.
pub(crate) fn no_host_to_host(alloc: Global, joins: &[Join]) -> Result<(), LinkError>
    ensures ok { OnOk result (All (λ (join : OneJoin). IsHostToHost join → ⊥) joins.now) }
    ensures err { IfErr result (SaysHostToHost joins.now) }
{
    for join in joins {
        if let (End::Cpu(name), End::Cpu(_)) = (&join.left, &join.right) {
            return Err(LinkError::HostToHost(name.copy(alloc)?));
        }
    }
    Ok(())
}

// Whether a join is between two kernels.
fn is_link(join: &Join) -> bool
    ensures { result ≡ is_link join.now }
{
    matches!(
        (&join.left, &join.right),
        (End::Kernel(..), End::Kernel(..))
    )
}

/// The port at a number.
pub(crate) fn port_at(slots: &[Slot], number: usize) -> PortAt
    requires { IsPortSlot slots.now number }
    ensures { slice_get slots.now number ≡ Some (Slot.Port result) }
{
    match slots[number] {
        Slot::Port(port) => port,
        _ => unreachable!("a port stands at this number"),
    }
}

/// The type of the words of a port.
pub(crate) fn type_at(kernels: &[Kernel], port: PortAt) -> StreamType
    requires { IsSome (node_of kernels.now port) }
    ensures { type_of kernels.now port ≡ Some result }
{
    let kernel = &kernels[port.kernel as usize];
    kernel.node(NodeId::new(port.node)).t
}

// Whether the ports of a link have one type.
fn have_one_type(kernels: &[Kernel], link: LinkEnds) -> bool
    requires from { IsSome (node_of kernels.now link.from) }
    requires to { IsSome (node_of kernels.now link.to) }
    ensures { IsTrue result ↔ HaveOneType kernels.now link }
{
    type_at(kernels, link.from) == type_at(kernels, link.to)
}

// The ports at the ends of a link.
fn link_at(slots: &[Slot], ends: Ends) -> LinkEnds
    requires left { IsPortSlot slots.now ends.left }
    requires right { IsPortSlot slots.now ends.right }
    ensures from { slice_get slots.now ends.right ≡ Some (Slot.Port result.from) }
    ensures to { slice_get slots.now ends.left ≡ Some (Slot.Port result.to) }
{
    LinkEnds {
        from: port_at(slots, ends.right),
        to: port_at(slots, ends.left),
    }
}

/// The links, in the order of the joins, where the two ends of each have one type.
pub(crate) fn links_of(
    alloc: Global,
    kernels: &[Kernel],
    plan: &Plan,
    slots: &[Slot],
    ends: &[Ends],
) -> Result<List<LinkEnds>, LinkError>
    requires ready { IsReady plan.now kernels.now }
    requires slots { AllZip (IsSlot plan.now kernels.now) (terminals plan.now kernels.now) slots.now }
    requires ends { AllZip (AreEnds (terminals plan.now kernels.now)) plan.now.joins ends.now }
    ensures joined { IfOk result (AreJoined kernels.now plan.now.joins) }
    ensures count { IfOk result (λ links. length links ≤ length plan.now.joins) }
    ensures types { IfOk result (All (HaveOneType kernels.now)) }
    ensures one { IfOk result (λ _.
        All (λ (join : OneJoin). HasTwoTypes kernels.now join → ⊥) plan.now.joins) }
    ensures err { IfErr result (SaysTypeDiffers plan.now kernels.now) }
{
    let joins = plan.joins.as_slice();
    let mut links = List::new(alloc);
    for number in 0..joins.len() {
        let join = &joins[number];
        if is_link(join) {
            let link = link_at(slots, ends[number]);
            if !have_one_type(kernels, link) {
                let end = end_name(alloc, kernels, &join.left)?;
                return Err(LinkError::TypeDiffers(end));
            }
            links.push(link)?;
        }
    }
    Ok(links)
}
