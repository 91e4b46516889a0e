// The kernels of a project, with the plan that they were built by and what it joins.
ghost use Rattle.std.specs.Prelude.{◌≡◌, true, IfOk, IfErr};
ghost use Rattle.manager_links.specs.Plans.{IsWholePlan, AreKernelsOf};
ghost use Rattle.manager_links.specs.Projects.{IsProject};
ghost use Rattle.manager_links.specs.Hosts.{AreInputs, AreOutputs};
ghost use Rattle.manager_links.specs.Rules.{MayRefuse, MeetsRules};
ghost use Rattle.manager_links.specs.Props.{links-prop, types-set};
ghost use Rattle.std.proofs.Props.{props};

use crate::joints::{alone, managed};
use crate::{HostPort, Joints, LinkEnds, LinkError};
use kernel_meaning::Plan;
use mx_base::List;
use std::alloc::Global;
use stream_graph::Kernel;

/// The kernels of a project, and the plan that they were built by: one kernel for each of the
/// plan's, of its name, in its order. Each input and each output of a kernel is joined once, to a
/// port of another kernel or to a stream of the CPU, and no kernels are linked in a loop.
#[derive(Drop)]
pub struct Project {
    pub(crate) kernels: List<Kernel>,
    pub(crate) plan: Plan,
    pub(crate) joints: Joints,
    ghost whole: { IsProject plan kernels joints } by { Prim.hlevel (props, types-set, links-prop) },
}

impl Project {
    /// The project of these kernels, which were built by this plan. Without a manager each port is
    /// joined to a stream of its name from or to the CPU.
    ///
    /// A manager's plan is refused by the first of these that stands: `SameName`, of kernels, else
    /// of streams from the CPU, else of those to it; `KernelCount`; `UnknownPort`, `LinkedTwice`,
    /// `HostToHost` and `TypeDiffers`, each of the first join, its left end before its right one;
    /// `Unlinked`, of the ports in node order, else of the streams from the CPU, else of those to
    /// it; `KernelLoop`, from the kernel of the least number. Where it refuses, kernels and plan
    /// are dropped.
    pub fn join(alloc: Global, kernels: Vec<Kernel>, plan: Plan) -> Result<Self, LinkError>
        requires whole { IsWholePlan plan }
        requires named { AreKernelsOf plan kernels.items }
        ensures kernels { IfOk result (λ project. project.kernels ≡ kernels.items) }
        ensures plan { IfOk result (λ project. project.plan ≡ plan) }
        ensures inputs { IfOk result (λ project.
            AreInputs plan kernels.items project.joints.inputs) }
        ensures outputs { IfOk result (λ project.
            AreOutputs plan kernels.items project.joints.outputs) }
        ensures rules { IfOk result (λ _.
            plan.manager ≡ true → MeetsRules plan kernels.items) }
        ensures err { IfErr result (MayRefuse plan kernels.items) }
    {
        let joints = if plan.manager {
            managed(alloc, kernels.as_slice(), &plan)?
        } else {
            alone(alloc, kernels.as_slice(), &plan)?
        };
        Ok(Project {
            kernels: List::from_vec(kernels),
            plan,
            joints,
        })
    }

    /// The kernels, in the order of the plan.
    pub fn kernels(&self) -> &[Kernel]
        ensures { result.now ≡ self.now.kernels }
    {
        self.kernels.as_slice()
    }

    /// The plan that the kernels were built by.
    pub fn plan(&self) -> &Plan
        ensures { result.now ≡ self.now.plan }
    {
        &self.plan
    }

    /// Where each link comes from and goes to, in the order of the plan's joins.
    pub fn links(&self) -> &[LinkEnds]
        ensures { result.now ≡ self.now.joints.links }
    {
        self.joints.links.as_slice()
    }

    /// The streams from the CPU.
    pub fn inputs(&self) -> &[HostPort]
        ensures { result.now ≡ self.now.joints.inputs }
    {
        self.joints.inputs.as_slice()
    }

    /// The streams to the CPU.
    pub fn outputs(&self) -> &[HostPort]
        ensures { result.now ≡ self.now.joints.outputs }
    {
        self.joints.outputs.as_slice()
    }

    /// The kernels in an order in which each stands behind those that it is linked from.
    pub fn order(&self) -> &[u32]
        ensures { result.now ≡ self.now.joints.order }
    {
        self.joints.order.as_slice()
    }

    /// The place of each kernel in that order, from 1.
    pub fn ranks(&self) -> &[usize]
        ensures { result.now ≡ self.now.joints.ranks }
    {
        self.joints.ranks.as_slice()
    }
}
