// What a simulator holds before its first call.
ghost use Rattle.std.specs.Prelude.{◌≡◌, ℕ, ◌^◌, ◌-◌, ◌<◌, ◌≤◌, min, length, map, Some, slice_get, IfOk};
ghost use Rattle.rtl_ir.specs.Interfaces.{nets_of};
ghost use Rattle.rtl_ir.specs.declared.design.Net.{Net};
ghost use Rattle.rtl_ir.specs.declared.design.Mem.{Mem};
ghost use Rattle.rtl_ir.specs.declared.design.Assign.{Assign};
ghost use Rattle.verilog_sim.specs.Runnable.{IsRunnable, IsSizedNet, IsSizedMem};
ghost use Rattle.verilog_sim.specs.Start.{AreFilled, words_at_start};
ghost use Rattle.verilog_sim.specs.First.{AreLiteralsSet};
ghost use Rattle.verilog_sim.specs.Feeding.{ArePortsIn};
ghost use Rattle.verilog_sim.specs.Simulates.{AreKept, AreValues, IsPrepared};
ghost use Rattle.verilog_sim.specs.Updates.{held_by};

use crate::compile::{Program, program_of};
use crate::instruction::reduce;
use crate::memory::Memory;
use crate::origin::read_at_origins;
use crate::values::Values;
use mx_base::{List, NoMemory};
use rtl_ir::{Assign, Expr, Interface, Module, NetId, Update};
use std::alloc::Global;
use std::mem;

/// The values of the ports that keep one value, the words of memories, the values of all nets, and
/// ahead of them those that registers hold.
#[derive(Drop)]
pub(crate) struct Start {
    pub(crate) steady: Vec<u128>,
    pub(crate) memories: Vec<Memory>,
    pub(crate) values: Values,
    pub(crate) ahead: Values,
}

/// The updates and the program of a module, the origins of its nets, and what its simulator holds
/// before the first call.
#[derive(Drop)]
pub(crate) struct Prepared {
    pub(crate) updates: List<Update>,
    pub(crate) program: Program,
    pub(crate) origins: Vec<NetId>,
    pub(crate) start: Start,
}

/// What a simulator needs of a module, with nets read where they come from. The rest of the module
/// is dropped.
pub(crate) fn prepare(
    alloc: Global,
    mut module: Module,
    interface: &Interface,
    fill: u128,
) -> Result<Prepared, NoMemory>
    requires runnable { IsRunnable «module» }
    requires small { length «module».nets ≤ 2 ^ 32 }
    requires ports { ArePortsIn «module» }
    requires net { interface.now.done < length «module».nets }
    ensures prepared { IfOk result (λ p. IsPrepared «module» interface.now p.program p.updates
        p.origins.items p.start.steady.items p.start.ahead p.start.values p.start.memories.items) }
    ensures steady { IfOk result (λ p. p.start.steady.items
        ≡ map (λ n. 0) (nets_of interface.now).steady) }
    ensures held { IfOk result (λ p. AreFilled fill «module».nets
        (held_by p.updates p.start.ahead)) }
    ensures memories { IfOk result (λ p. p.start.memories.items
        ≡ map (words_at_start fill) «module».mems) }
{
    take_prepared(alloc, &mut module, interface, fill)
}

// Takes that from a module. Apart from `prepare`, which owns the module, so that there is one place
// where a module is dropped.
fn take_prepared(
    alloc: Global,
    module: &mut Module,
    interface: &Interface,
    fill: u128,
) -> Result<Prepared, NoMemory>
    requires runnable { IsRunnable module.old }
    requires small { length module.old.nets ≤ 2 ^ 32 }
    requires ports { ArePortsIn module.old }
    requires net { interface.now.done < length module.old.nets }
    ensures prepared { IfOk result (λ p. IsPrepared module.old interface.now p.program p.updates
        p.origins.items p.start.steady.items p.start.ahead p.start.values p.start.memories.items) }
    ensures steady { IfOk result (λ p. p.start.steady.items
        ≡ map (λ n. 0) (nets_of interface.now).steady) }
    ensures held { IfOk result (λ p. AreFilled fill module.old.nets
        (held_by p.updates p.start.ahead)) }
    ensures memories { IfOk result (λ p. p.start.memories.items
        ≡ map (words_at_start fill) module.old.mems) }
{
    let origins = read_at_origins(alloc, module)?;
    let program = program_of(alloc, module, origins.as_slice(), interface.done)?;
    let start = start_of(alloc, module, interface, fill)?;
    let updates = mem::replace(&mut module.updates, List::new(alloc));
    Ok(Prepared {
        updates,
        program,
        origins,
        start,
    })
}

/// The low bits of a word in each register and memory word of a module, and 0 at the ports that
/// keep one value.
fn start_of(
    alloc: Global,
    module: &Module,
    interface: &Interface,
    fill: u128,
) -> Result<Start, NoMemory>
    requires runnable { IsRunnable module.now }
    requires small { length module.now.nets ≤ 2 ^ 32 }
    ensures steady { IfOk result (λ s. s.steady.items
        ≡ map (λ n. 0) (nets_of interface.now).steady) }
    ensures held { IfOk result (λ s. AreFilled fill module.now.nets
        (held_by module.now.updates s.ahead)) }
    ensures memories { IfOk result (λ s. s.memories.items
        ≡ map (words_at_start fill) module.now.mems) }
    ensures kept { IfOk result (λ s. AreKept module.now interface.now s.steady.items
        (held_by module.now.updates s.ahead) s.ahead s.memories.items) }
    ensures first { IfOk result (λ s. AreValues module.now s.values s.memories.items) }
{
    let kernels = interface.kernels.as_slice().len();
    let scalars = interface.scalars.as_slice().len();
    let steady = vec![in alloc; 0; kernels + scalars]?;
    let memories = memories(alloc, module, fill)?;
    let mut ahead = registers(alloc, module, fill)?;
    let mut values = Values::zeros(alloc, module.nets.len())?;
    set_literals(module.assigns.as_slice(), &mut ahead);
    set_literals(module.assigns.as_slice(), &mut values);
    Ok(Start {
        steady,
        memories,
        values,
        ahead,
    })
}

/// The low bits of a word in each register, and 0 at each other net.
fn registers(alloc: Global, module: &Module, fill: u128) -> Result<Values, NoMemory>
    requires sized { (k : ℕ) (n : Net) → slice_get module.now.nets k ≡ Some n → IsSizedNet n }
    requires small { length module.now.nets ≤ 2 ^ 32 }
    ensures size { IfOk result (λ held. length held ≡ length module.now.nets) }
    ensures filled { IfOk result (λ held. AreFilled fill module.now.nets held) }
{
    let mut held = Values::zeros(alloc, module.nets.len())?;
    for (k, net) in module.nets.as_slice().iter().enumerate() {
        if net.reg {
            held.set(NetId::new(k as u32), reduce(fill, net.width));
        }
    }
    Ok(held)
}

/// The low bits of a word in each word of the memories.
fn memories(alloc: Global, module: &Module, fill: u128) -> Result<Vec<Memory>, NoMemory>
    requires { (k : ℕ) (x : Mem) → slice_get module.now.mems k ≡ Some x → IsSizedMem x }
    ensures { IfOk result (λ memories. memories.items ≡ map (words_at_start fill) module.now.mems) }
{
    let mut memories = Vec::new(alloc);
    for memory in module.mems.as_slice() {
        let word = reduce(fill, memory.width);
        memories.push(Memory::new(alloc, word, memory.depth)?)?;
    }
    Ok(memories)
}

/// Gives each net that is assigned a literal its word.
fn set_literals(assigns: &[Assign], values: &mut Values)
    requires { (k : ℕ) (a : Assign) → slice_get assigns.now k ≡ Some a → a.target < length values.old }
    ensures { AreLiteralsSet assigns.now values.old values.new (length assigns.now) }
{
    for assign in assigns {
        if let Expr::Literal(word) = assign.expr {
            values.set(assign.target, word.bits());
        }
    }
}
