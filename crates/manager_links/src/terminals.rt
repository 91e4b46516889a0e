// All that joins can end at, by numbers: the ports of the kernels, and the streams of the CPU.
ghost use Rattle.std.specs.Prelude.{◌≡◌, ℕ, ◌<◌, ◌≤◌, ◌++◌, ◌∷◌, [], List, Option, Some, map, take, length, slice_get, IfOk, OnOk, MatchOption};
ghost use Rattle.std.specs.List.{Contains, filter_map};
ghost use Rattle.kernel_meaning.specs.declared.plan.Plan.{Plan as OnePlan};
ghost use Rattle.stream_graph.specs.declared.kernel.Kernel.{Kernel as OneKernel};
ghost use Rattle.manager_links.specs.Numbers.{Knows, IsSlot, left_of, right_of};
ghost use Rattle.manager_links.specs.Terminals as Ends;
ghost use Rattle.manager_links.specs.Terminals.{Terminal, left_terminal, right_terminal, terminal_of, ports_at, FromCpu, ToCpu};

use crate::PortAt;
use crate::names::Names;
use kernel_meaning::{End, Plan};
use mx_base::{NoMemory, Text};
use std::alloc::Global;
use stream_graph::{Kernel, Kind, NodeId};

/// What a join can end at.
#[derive(Clone, Copy, PartialEq, Eq)]
pub(crate) enum Slot {
    /// An input or an output of a kernel.
    Port(PortAt),
    /// A stream from the CPU, by its place in the plan.
    FromCpu(usize),
    /// A stream to the CPU, by its place in the plan.
    ToCpu(usize),
}

/// All that joins can end at, each at its number, and the numbers by the names that joins give: of
/// a kernel, or of the CPU; on the left of a join, or on its right.
#[derive(Drop)]
pub(crate) struct Terminals<'a> {
    pub slots: Vec<Slot>,
    pub lefts: Names<'a>,
    pub rights: Names<'a>,
}

impl<'a> Terminals<'a> {
    // Nothing is known.
    fn new(alloc: Global) -> Self
        ensures { (plan : OnePlan) (kernels : List OneKernel) → Knows plan kernels [] result }
    {
        Terminals {
            slots: Vec::new(alloc),
            lefts: Names::new(alloc),
            rights: Names::new(alloc),
        }
    }

    // One more can stand on the left of joins.
    fn add_left(&mut self, kernel: Option<u32>, name: &'a [u8], slot: Slot) -> Result<(), NoMemory>
        ensures { (plan : OnePlan) (kernels : List OneKernel) (ends : List Terminal)
            → IsSlot plan kernels (left_of kernel name.entry.now) slot
            → Knows plan kernels ends self.old
            → OnOk result (Knows plan kernels (ends ++ left_of kernel name.entry.now ∷ []) self.new) }
    {
        self.lefts.add(kernel, name, self.slots.len())?;
        self.slots.push(slot)?;
        Ok(())
    }

    // One more can stand on the right of joins.
    fn add_right(&mut self, kernel: Option<u32>, name: &'a [u8], slot: Slot) -> Result<(), NoMemory>
        ensures { (plan : OnePlan) (kernels : List OneKernel) (ends : List Terminal)
            → IsSlot plan kernels (right_of kernel name.entry.now) slot
            → Knows plan kernels ends self.old
            → OnOk result (Knows plan kernels (ends ++ right_of kernel name.entry.now ∷ []) self.new) }
    {
        self.rights.add(kernel, name, self.slots.len())?;
        self.slots.push(slot)?;
        Ok(())
    }

    // The inputs and outputs of the kernel of this number.
    fn add_ports(&mut self, kernels: &'a [Kernel], number: u32) -> Result<(), NoMemory>
        requires { number < length kernels.now }
        ensures { (plan : OnePlan) (ends : List Terminal)
            → Knows plan kernels.entry.now ends self.old
            → OnOk result (Knows plan kernels.entry.now
            (ends ++ ports_at kernels.entry.now number) self.new) }
    {
        let kernel = &kernels[number as usize];
        for node in 0..kernel.count() {
            let id = NodeId::new(node);
            let slot = Slot::Port(PortAt {
                kernel: number,
                node,
            });
            match kernel.node(id).kind {
                Kind::Input => self.add_left(Some(number), kernel.port_name(id), slot)?,
                Kind::Output => self.add_right(Some(number), kernel.port_name(id), slot)?,
                _ => {}
            }
        }
        Ok(())
    }

    // The streams from the CPU.
    fn add_from_cpu(&mut self, names: &'a [Text]) -> Result<(), NoMemory>
        ensures { (plan : OnePlan) (kernels : List OneKernel) (ends : List Terminal)
            → names.entry.now ≡ plan.from_cpu → Knows plan kernels ends self.old
            → OnOk result (Knows plan kernels (ends ++ map FromCpu names.entry.now) self.new) }
    {
        for place in 0..names.len() {
            self.add_right(None, names[place].as_bytes(), Slot::FromCpu(place))?;
        }
        Ok(())
    }

    // The streams to the CPU.
    fn add_to_cpu(&mut self, names: &'a [Text]) -> Result<(), NoMemory>
        ensures { (plan : OnePlan) (kernels : List OneKernel) (ends : List Terminal)
            → names.entry.now ≡ plan.to_cpu → Knows plan kernels ends self.old
            → OnOk result (Knows plan kernels (ends ++ map ToCpu names.entry.now) self.new) }
    {
        for place in 0..names.len() {
            self.add_left(None, names[place].as_bytes(), Slot::ToCpu(place))?;
        }
        Ok(())
    }

    /// All that joins of a plan of these kernels can end at.
    pub fn of(alloc: Global, kernels: &'a [Kernel], plan: &'a Plan) -> Result<Self, NoMemory>
        requires { length kernels.now ≤ 64 }
        ensures { IfOk result (λ known.
            Knows plan.entry.now kernels.entry.now (Ends.terminals plan.entry.now kernels.entry.now)
            known) }
    {
        let mut known = Terminals::new(alloc);
        for number in 0..kernels.len() as u32 {
            known.add_ports(kernels, number)?;
        }
        known.add_from_cpu(plan.from_cpu.as_slice())?;
        known.add_to_cpu(plan.to_cpu.as_slice())?;
        Ok(known)
    }

    /// The number of what the left end of a join names.
    pub fn left(&self, end: &End) -> Option<usize>
        ensures { (plan : OnePlan) (kernels : List OneKernel) (ends : List Terminal)
            → Knows plan kernels ends self.now
            → MatchOption result (Contains ends (left_terminal end.now) → ⊥)
            (λ number. slice_get ends number ≡ Some (left_terminal end.now)) }
    {
        match end {
            End::Kernel(kernel, name) => self.lefts.number(Some(*kernel), name.as_bytes()),
            End::Cpu(name) => self.lefts.number(None, name.as_bytes()),
        }
    }

    /// The number of what the right end of a join names.
    pub fn right(&self, end: &End) -> Option<usize>
        ensures { (plan : OnePlan) (kernels : List OneKernel) (ends : List Terminal)
            → Knows plan kernels ends self.now
            → MatchOption result (Contains ends (right_terminal end.now) → ⊥)
            (λ number. slice_get ends number ≡ Some (right_terminal end.now)) }
    {
        match end {
            End::Kernel(kernel, name) => self.rights.number(Some(*kernel), name.as_bytes()),
            End::Cpu(name) => self.rights.number(None, name.as_bytes()),
        }
    }
}
