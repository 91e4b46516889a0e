// What a plan joins.
ghost use Rattle.std.specs.Prelude.{◌≡◌, false, true, IfOk, IfErr};
ghost use Rattle.manager_links.specs.Plans.{IsWholePlan, AreKernelsOf};
ghost use Rattle.manager_links.specs.Projects.{IsCarriedOut};
ghost use Rattle.manager_links.specs.Rules.{MayRefuse};

use crate::ends::number_joins;
use crate::hosts::{managed_hosts, own_hosts};
use crate::joining::{links_of, no_host_to_host};
use crate::kernel_order::order_of;
use crate::names::names_differ;
use crate::placing::{partners, place_joins};
use crate::terminals::Terminals;
use crate::{HostPort, LinkEnds, LinkError};
use kernel_meaning::Plan;
use mx_base::{List, NoMemory};
use std::alloc::Global;
use stream_graph::Kernel;

/// What a plan joins: the links, in the order of their joins; the streams from the CPU with the
/// inputs that they feed, and those to the CPU with the outputs that give their words, in the order
/// of the manager's calls, or without a manager in node order; and an order of the kernels in which
/// each stands behind those that it is linked from, with the place of each kernel in it, from 1.
#[derive(Drop)]
pub struct Joints {
    pub links: List<LinkEnds>,
    pub inputs: List<HostPort>,
    pub outputs: List<HostPort>,
    pub order: List<u32>,
    pub ranks: List<usize>,
}

/// A project has at most so many kernels.
const MOST_KERNELS: usize = 64;

/// What a manager's plan joins.
pub(crate) fn managed(alloc: Global, kernels: &[Kernel], plan: &Plan) -> Result<Joints, LinkError>
    requires manager { plan.now.manager ≡ true }
    requires whole { IsWholePlan plan.now }
    requires named { AreKernelsOf plan.now kernels.now }
    ensures ok { IfOk result (IsCarriedOut plan.now kernels.now) }
    ensures err { IfErr result (MayRefuse plan.now kernels.now) }
{
    names_differ(alloc, kernels, plan)?;
    if kernels.len() == 0 || kernels.len() > MOST_KERNELS {
        return Err(LinkError::KernelCount(kernels.len()));
    }
    if plan.joins.len() > u32::MAX as usize {
        return Err(LinkError::NoMemory);
    }
    let known = Terminals::of(alloc, kernels, plan)?;
    let slots = known.slots.as_slice();
    let numbers = number_joins(alloc, kernels, plan, &known)?;
    let ends = numbers.as_slice();
    let places = place_joins(alloc, kernels, plan, ends, slots.len())?;
    no_host_to_host(alloc, plan.joins.as_slice())?;
    let links = links_of(alloc, kernels, plan, slots, ends)?;
    let partners = partners(alloc, kernels, plan, slots, ends, places.as_slice())?;
    let order = order_of(alloc, kernels, links.as_slice())?;
    let hosts = managed_hosts(alloc, kernels, plan, slots, partners.as_slice())?;
    Ok(Joints {
        links,
        inputs: hosts.inputs,
        outputs: hosts.outputs,
        order: List::from_vec(order.nodes),
        ranks: List::from_vec(order.rank),
    })
}

/// What a plan without a manager joins: each port to a stream of its name.
pub(crate) fn alone(alloc: Global, kernels: &[Kernel], plan: &Plan) -> Result<Joints, NoMemory>
    requires manager { plan.now.manager ≡ false }
    requires whole { IsWholePlan plan.now }
    requires named { AreKernelsOf plan.now kernels.now }
    ensures { IfOk result (IsCarriedOut plan.now kernels.now) }
{
    let hosts = own_hosts(alloc, &kernels[0])?;
    Ok(Joints {
        links: List::new(alloc),
        inputs: hosts.inputs,
        outputs: hosts.outputs,
        order: List::from_vec(vec![in alloc; 0; 1]?),
        ranks: List::from_vec(vec![in alloc; 1; 1]?),
    })
}
