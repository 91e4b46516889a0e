// In which join each terminal stands, and which other one that join ends at.
ghost use Rattle.std.specs.Prelude.{◌≡◌, ◌<◌, All, Some, None, length, slice_get, slice_set, replicate, OnOk, IsTrue, IsFalse, IfOk, IfErr};
ghost use Rattle.std.specs.List.{AllZip, Contains};
ghost use Rattle.manager_links.specs.Lists.{AllDiffer};
ghost use Rattle.manager_links.specs.Numbers.{Knows, AreEnds, IsSlot};
ghost use Rattle.manager_links.specs.Placed.{ArePlaced, ArePartners, IsTaken, SaysTwice, SaysUnlinked};
ghost use Rattle.manager_links.specs.Steps.{IsReady};
ghost use Rattle.manager_links.specs.Terminals.{Terminal, terminals, ends_of, said_as};

use crate::ends::{Ends, end_name, kernel_name};
use crate::names::text_of;
use crate::terminals::Slot;
use crate::{EndName, LinkError};
use kernel_meaning::Plan;
use mx_base::NoMemory;
use std::alloc::Global;
use stream_graph::{Kernel, NodeId};

// Puts a join at a terminal, unless one stands there.
fn place(places: &mut [Option<usize>], number: usize, join: usize) -> bool
    requires { number < length places.old }
    ensures placed { IsTrue result → (slice_get places.old number ≡ Some None)
        × (places.new ≡ slice_set places.old number (Some join)) }
    ensures taken { IsFalse result → IsTaken places.old number }
{
    if places[number].is_some() {
        return false;
    }
    places[number] = Some(join);
    true
}

// So many terminals at which no join stands.
fn no_places(alloc: Global, count: usize) -> Result<Vec<Option<usize>>, NoMemory>
    ensures { IfOk result (λ places. places.items ≡ replicate count None) }
{
    let mut places = Vec::new(alloc);
    for _terminal in 0..count {
        places.push(None)?;
    }
    Ok(places)
}

// Puts each join at both terminals at which it ends, where no other one stands there.
fn place_all(
    alloc: Global,
    kernels: &[Kernel],
    plan: &Plan,
    ends: &[Ends],
    places: &mut [Option<usize>],
) -> Result<(), LinkError>
    requires ready { IsReady plan.now kernels.now }
    requires ends { AllZip (AreEnds (terminals plan.now kernels.now)) plan.now.joins ends.now }
    requires places { places.old ≡ replicate (length (terminals plan.now kernels.now)) None }
    ensures placed { OnOk result (ArePlaced (terminals plan.now kernels.now) ends.now
        (ends_of plan.now.joins) places.new) }
    ensures once { OnOk result (AllDiffer (ends_of plan.now.joins)) }
    ensures err { IfErr result (SaysTwice plan.now kernels.now) }
{
    let joins = plan.joins.as_slice();
    for number in 0..joins.len() {
        let join = &joins[number];
        let numbers = ends[number];
        if !place(places, numbers.left, number) {
            return Err(LinkError::LinkedTwice(end_name(alloc, kernels, &join.left)?));
        }
        if !place(places, numbers.right, number) {
            return Err(LinkError::LinkedTwice(end_name(alloc, kernels, &join.right)?));
        }
    }
    Ok(())
}

/// The number of the join that ends at each terminal, if one does, where no two joins end at one.
pub(crate) fn place_joins(
    alloc: Global,
    kernels: &[Kernel],
    plan: &Plan,
    ends: &[Ends],
    count: usize,
) -> Result<Vec<Option<usize>>, LinkError>
    requires ready { IsReady plan.now kernels.now }
    requires ends { AllZip (AreEnds (terminals plan.now kernels.now)) plan.now.joins ends.now }
    requires count { count ≡ length (terminals plan.now kernels.now) }
    ensures placed { IfOk result (λ places. ArePlaced (terminals plan.now kernels.now)
        ends.now (ends_of plan.now.joins) places.items) }
    ensures once { IfOk result (λ _. AllDiffer (ends_of plan.now.joins)) }
    ensures err { IfErr result (SaysTwice plan.now kernels.now) }
{
    let mut places = no_places(alloc, count)?;
    place_all(alloc, kernels, plan, ends, places.as_mut_slice())?;
    Ok(places)
}

// What a terminal is called.
fn slot_name(
    alloc: Global,
    kernels: &[Kernel],
    plan: &Plan,
    slot: Slot,
) -> Result<EndName, NoMemory>
    requires { (end : Terminal) × IsSlot plan.now kernels.now end slot }
    ensures { IfOk result (λ name. (end : Terminal) → IsSlot plan.now kernels.now end slot
        → name ≡ said_as kernels.now end) }
{
    match slot {
        Slot::Port(port) => {
            let kernel = kernel_name(alloc, kernels, port.kernel)?;
            let name = kernels[port.kernel as usize].port_name(NodeId::new(port.node));
            Ok(EndName::Port(kernel, text_of(alloc, name)?))
        }
        Slot::FromCpu(place) => Ok(EndName::Cpu(plan.from_cpu.at(place).copy(alloc)?)),
        Slot::ToCpu(place) => Ok(EndName::Cpu(plan.to_cpu.at(place).copy(alloc)?)),
    }
}

/// For each terminal the number of the one at the other end of its join, where each has a join.
pub(crate) fn partners(
    alloc: Global,
    kernels: &[Kernel],
    plan: &Plan,
    slots: &[Slot],
    ends: &[Ends],
    places: &[Option<usize>],
) -> Result<Vec<usize>, LinkError>
    requires slots { AllZip (IsSlot plan.now kernels.now) (terminals plan.now kernels.now) slots.now }
    requires ends { AllZip (AreEnds (terminals plan.now kernels.now)) plan.now.joins ends.now }
    requires placed { ArePlaced (terminals plan.now kernels.now) ends.now (ends_of plan.now.joins)
        places.now }
    ensures ok { IfOk result (λ partners. ArePartners (terminals plan.now kernels.now)
        plan.now.joins partners.items) }
    ensures linked { IfOk result (λ _.
        All (Contains (ends_of plan.now.joins)) (terminals plan.now kernels.now)) }
    ensures err { IfErr result (SaysUnlinked plan.now kernels.now) }
{
    let mut partners = Vec::new(alloc);
    for number in 0..slots.len() {
        let Some(join) = places[number] else {
            let end = slot_name(alloc, kernels, plan, slots[number])?;
            return Err(LinkError::Unlinked(end));
        };
        partners.push(ends[join].other(number))?;
    }
    Ok(partners)
}
