// A design made flat: one module without instances that says the same.
ghost use Rattle.std.specs.Prelude.{◌≡◌, ℕ, ◌+◌, ◌^◌, ◌<◌, ◌≤◌, [], length, Some, slice_get, IfOk, OnOk};
ghost use Rattle.rtl_ir.specs.declared.design.Module.{Module};
ghost use Rattle.rtl_ir.specs.declared.design.Port.{Port};
ghost use Rattle.rtl_ir.specs.Flat.{top_of};
ghost use Rattle.rtl_ir.specs.Rules.{IsAccepted};
ghost use Rattle.verilog_sim.specs.Flattened.{IsRanged, IsAdded, IsAddedJoined, IsFlat, module_of};
ghost use Rattle.verilog_sim.specs.Start.{all_cells};

use crate::inlining::{add_assigns, add_instances, add_joins, add_mems, add_nets, add_updates};
use crate::relocation::First;
use crate::scope::Scope;
use mx_base::{List, NoMemory, Text};
use rtl_ir::{Assign, Design, Instance, Mem, Module, Net, NetId, Port, Update};
use std::alloc::Global;

/// The flat module of a design, and where its instances stand in it.
#[derive(Drop)]
pub(crate) struct Flat {
    pub(crate) module: Module,
    pub(crate) scopes: Vec<Scope>,
}

/// The lists of a flat module so far, and the instances that have not yet become parts of it.
#[derive(Drop)]
pub(crate) struct Parts {
    nets: Vec<Net>,
    mems: Vec<Mem>,
    assigns: Vec<Assign>,
    updates: Vec<Update>,
    instances: Vec<Instance>,
}

impl Parts {
    /// No part.
    fn new(alloc: Global) -> Self
        ensures nets { result.nets.items ≡ [] }
        ensures mems { result.mems.items ≡ [] }
        ensures assigns { result.assigns.items ≡ [] }
        ensures updates { result.updates.items ≡ [] }
        ensures instances { result.instances.items ≡ [] }
    {
        Parts {
            nets: Vec::new(alloc),
            mems: Vec::new(alloc),
            assigns: Vec::new(alloc),
            updates: Vec::new(alloc),
            instances: Vec::new(alloc),
        }
    }

    /// Where a module will stand that becomes a part in place of the instance that was the last one.
    fn place_of(&self, inner: &Module) -> Scope
        ensures instance { result.instance ≡ length self.now.instances.items }
        ensures first_net { result.first_net ≡ length self.now.nets.items }
        ensures nets { result.nets ≡ length inner.now.nets }
        ensures first_mem { result.first_mem ≡ length self.now.mems.items }
        ensures mems { result.mems ≡ length inner.now.mems }
    {
        Scope {
            instance: self.instances.len(),
            first_net: self.nets.len(),
            nets: inner.nets.len(),
            first_mem: self.mems.len(),
            mems: inner.mems.len(),
        }
    }

    /// Adds a module, with all its instances to become parts later.
    fn add(&mut self, alloc: Global, part: &Module) -> Result<(), NoMemory>
        requires ranged { IsRanged part.now }
        requires nets { length self.old.nets.items + length part.now.nets < 2 ^ 32 }
        requires mems { length self.old.mems.items + length part.now.mems < 2 ^ 32 }
        ensures { OnOk result (IsAdded self.old self.new part.now) }
    {
        let first = First {
            net: self.nets.len(),
            mem: self.mems.len(),
        };
        add_nets(alloc, &mut self.nets, part.nets.as_slice())?;
        add_mems(alloc, &mut self.mems, part.mems.as_slice())?;
        add_assigns(&mut self.assigns, part.assigns.as_slice(), first)?;
        add_updates(&mut self.updates, part.updates.as_slice(), first)?;
        add_instances(
            alloc,
            &mut self.instances,
            part.instances.as_slice(),
            first.net,
        )
    }

    /// Adds a module that becomes a part in place of an instance, with its ports joined to these nets.
    fn join(&mut self, alloc: Global, part: &Module, nets: &[NetId]) -> Result<(), NoMemory>
        requires ranged { IsRanged part.now }
        requires nets { length self.old.nets.items + length part.now.nets < 2 ^ 32 }
        requires mems { length self.old.mems.items + length part.now.mems < 2 ^ 32 }
        requires ports { (k : ℕ) (p : Port) → slice_get part.now.ports k ≡ Some p → p.net < length part.now.nets }
        requires joined { length nets.now ≡ length part.now.ports }
        ensures { OnOk result (IsAddedJoined self.old self.new part.now nets.now) }
    {
        let first_net = self.nets.len();
        self.add(alloc, part)?;
        add_joins(&mut self.assigns, part.ports.as_slice(), nets, first_net)
    }

    /// The module of the lists, with these ports.
    fn into_module(self, alloc: Global, ports: &[Port]) -> Result<Module, NoMemory>
        ensures { IfOk result (λ m. m ≡ module_of ports.now self) }
    {
        Ok(Module {
            name: Text::from_vec(Vec::new(alloc)),
            ports: List::from_vec(Vec::from_slice(alloc, ports)?),
            nets: List::from_vec(self.nets),
            mems: List::from_vec(self.mems),
            assigns: List::from_vec(self.assigns),
            updates: List::from_vec(self.updates),
            instances: List::from_vec(self.instances),
        })
    }
}

/// One module without instances that says what an accepted design says.
pub(crate) fn flatten(alloc: Global, design: &Design) -> Result<Flat, NoMemory>
    requires accepted { IsAccepted design.now }
    requires small { all_cells design.now ≤ 2 ^ 26 }
    ensures { IfOk result (λ flat. IsFlat design.now flat.scopes.items flat.«module») }
{
    let mut parts = Parts::new(alloc);
    let scopes = add_design(alloc, &mut parts, design)?;
    let ports = design.top().ports.as_slice();
    Ok(Flat {
        module: parts.into_module(alloc, ports)?,
        scopes,
    })
}

// Adds the top module of a design to lists that are empty, and each instance as a part in its
// place. Apart from `flatten`, which owns the lists, so that no error here has them to drop.
fn add_design(alloc: Global, parts: &mut Parts, design: &Design) -> Result<Vec<Scope>, NoMemory>
    requires accepted { IsAccepted design.now }
    requires small { all_cells design.now ≤ 2 ^ 26 }
    requires nets { parts.old.nets.items ≡ [] }
    requires mems { parts.old.mems.items ≡ [] }
    requires assigns { parts.old.assigns.items ≡ [] }
    requires updates { parts.old.updates.items ≡ [] }
    requires instances { parts.old.instances.items ≡ [] }
    ensures { IfOk result (λ scopes. (top : Module) → top_of design.now ≡ Some top
        → IsFlat design.now scopes.items (module_of top.ports parts.new)) }
{
    parts.add(alloc, design.top())?;
    let mut scopes = Vec::new(alloc);
    while let Some(instance) = parts.instances.pop() {
        let part = design.modules.at(instance.module.index());
        scopes.push(parts.place_of(part))?;
        parts.join(alloc, part, instance.nets.as_slice())?;
    }
    Ok(scopes)
}
