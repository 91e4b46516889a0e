// The lists of a flat module while parts are added to it.
ghost use Rattle.std.specs.Prelude.{◌≡◌, ℕ, ◌+◌, ◌^◌, ◌<◌, ◌++◌, length, map, Some, slice_get, IfOk, OnOk};
ghost use Rattle.rtl_ir.specs.declared.design.Assign.{Assign};
ghost use Rattle.rtl_ir.specs.declared.design.Update.{Update};
ghost use Rattle.rtl_ir.specs.declared.design.Instance.{Instance};
ghost use Rattle.rtl_ir.specs.declared.design.Port.{Port};
ghost use Rattle.verilog_sim.specs.Relocation.{bare_net, bare_mem, relocated_assign as assign_of};
ghost use Rattle.verilog_sim.specs.Relocation.{relocated_update as update_of, relocated_instance as instance_of};
ghost use Rattle.verilog_sim.specs.Relocation.{joins_of, IsAssignMovable, IsUpdateMovable};

use crate::relocation::{First, joined, relocated_assign, relocated_net, relocated_update};
use mx_base::{List, NoMemory, Text};
use rtl_ir::{Assign, Expr, Instance, Mem, Net, NetId, Port, Update};
use std::alloc::Global;

/// Adds the nets of a module, without names.
pub(crate) fn add_nets(alloc: Global, nets: &mut Vec<Net>, more: &[Net]) -> Result<(), NoMemory>
    ensures { OnOk result (nets.new.items ≡ nets.old.items ++ map bare_net more.now) }
{
    for net in more {
        nets.push(Net {
            name: Text::from_vec(Vec::new(alloc)),
            width: net.width,
            reg: net.reg,
        })?;
    }
    Ok(())
}

/// Adds the memories of a module, without names.
pub(crate) fn add_mems(alloc: Global, mems: &mut Vec<Mem>, more: &[Mem]) -> Result<(), NoMemory>
    ensures { OnOk result (mems.new.items ≡ mems.old.items ++ map bare_mem more.now) }
{
    for mem in more {
        mems.push(Mem {
            name: Text::from_vec(Vec::new(alloc)),
            width: mem.width,
            depth: mem.depth,
        })?;
    }
    Ok(())
}

/// Adds the assignments of a module, with their numbers moved.
pub(crate) fn add_assigns(
    assigns: &mut Vec<Assign>,
    more: &[Assign],
    first: First,
) -> Result<(), NoMemory>
    requires { (k : ℕ) (a : Assign) → slice_get more.now k ≡ Some a → IsAssignMovable first.net first.mem a }
    ensures { OnOk result (assigns.new.items ≡ assigns.old.items ++ map (assign_of first.net first.mem) more.now) }
{
    for assign in more {
        assigns.push(relocated_assign(assign, first))?;
    }
    Ok(())
}

/// Adds the updates of a module, with their numbers moved.
pub(crate) fn add_updates(
    updates: &mut Vec<Update>,
    more: &[Update],
    first: First,
) -> Result<(), NoMemory>
    requires { (k : ℕ) (u : Update) → slice_get more.now k ≡ Some u → IsUpdateMovable first.net first.mem u }
    ensures { OnOk result (updates.new.items ≡ updates.old.items ++ map (update_of first.net first.mem) more.now) }
{
    for update in more {
        updates.push(relocated_update(update, first))?;
    }
    Ok(())
}

/// Adds the instances of a module, without names and with the nets moved that they are joined to.
pub(crate) fn add_instances(
    alloc: Global,
    instances: &mut Vec<Instance>,
    more: &[Instance],
    first_net: usize,
) -> Result<(), NoMemory>
    requires { (k j n : ℕ) (i : Instance) → slice_get more.now k ≡ Some i → slice_get i.nets j ≡ Some n → first_net + n < 2 ^ 32 }
    ensures { OnOk result (instances.new.items ≡ instances.old.items ++ map (instance_of first_net) more.now) }
{
    for instance in more {
        instances.push(relocated_instance(alloc, instance, first_net)?)?;
    }
    Ok(())
}

fn relocated_instance(
    alloc: Global,
    instance: &Instance,
    first_net: usize,
) -> Result<Instance, NoMemory>
    requires { (j n : ℕ) → slice_get instance.now.nets j ≡ Some n → first_net + n < 2 ^ 32 }
    ensures { IfOk result (λ i. i ≡ instance_of first_net instance.now) }
{
    Ok(Instance {
        module: instance.module,
        name: Text::from_vec(Vec::new(alloc)),
        nets: relocated_nets(alloc, instance.nets.as_slice(), first_net)?,
    })
}

fn relocated_nets(alloc: Global, nets: &[NetId], first_net: usize) -> Result<List<NetId>, NoMemory>
    requires { (j n : ℕ) → slice_get nets.now j ≡ Some n → first_net + n < 2 ^ 32 }
    ensures { IfOk result (λ l. l ≡ map (λ n. first_net + n) nets.now) }
{
    let mut moved = Vec::new(alloc);
    for net in nets {
        moved.push(relocated_net(first_net, *net))?;
    }
    Ok(List::from_vec(moved))
}

/// Adds the assignments that join the ports of a part to these nets.
pub(crate) fn add_joins(
    assigns: &mut Vec<Assign>,
    ports: &[Port],
    nets: &[NetId],
    first_net: usize,
) -> Result<(), NoMemory>
    requires nets { length nets.now ≡ length ports.now }
    requires ports { (k : ℕ) (p : Port) → slice_get ports.now k ≡ Some p → first_net + p.net < 2 ^ 32 }
    ensures { OnOk result (assigns.new.items ≡ assigns.old.items ++ joins_of first_net ports.now nets.now) }
{
    for (k, port) in ports.iter().enumerate() {
        let join = joined(first_net, *port, nets[k]);
        assigns.push(Assign {
            target: join.target,
            expr: Expr::Net(join.source),
        })?;
    }
    Ok(())
}
