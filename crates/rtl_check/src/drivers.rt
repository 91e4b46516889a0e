// What gives each net of a module its value, and writes each of its memories.
ghost use Rattle.std.specs.Prelude.{◌≡◌, ◌<◌, ◌+◌, ℕ, false, not, length, slice_get, Some, vec_len, IfOk, IfErr, OnOk, IfSome, IfNone};
ghost use Rattle.rtl_ir.specs.declared.design.Design.{Design};
ghost use Rattle.rtl_ir.specs.declared.design.Assign.{Assign};
ghost use Rattle.rtl_ir.specs.declared.design.Port.{Port};
ghost use Rattle.rtl_ir.specs.declared.design.Update.{Update};
ghost use Rattle.rtl_ir.specs.Value.{is_reg};
ghost use Rattle.rtl_ir.specs.Operands.{target_net, target_mem};
ghost use Rattle.rtl_ir.specs.Formed.{IsFormedModule};
ghost use Rattle.rtl_ir.specs.Rules.{HasDrivers, HasUpdates};
ghost use Rattle.rtl_ir.specs.Faults.{IsFirst};
ghost use Rattle.rtl_check.specs.FirstFault.{IsTwoDrivers, IsNoDriver};
ghost use Rattle.rtl_check.specs.Fed.{after, IsSeen, AreFed, AreWritten, AreMarked};
ghost use Rattle.rtl_check.specs.Checked.{IsNoMemoryOr, Marks, HasNoTwo};

use mx_base::NoMemory;
use rtl_ir::{Design, Instance, Module, RtlError, Target};
use std::alloc::Global;

/// What is known of the sources of a net, or of the updates of a memory.
#[derive(Clone, Copy, PartialEq, Eq)]
pub enum Fed {
    /// There is none.
    Never,
    /// There is none, and the net is an input.
    Input,
    /// There is one, which may be one.
    Once,
    /// There is one that may not be one, or there are two.
    Wrongly,
}

impl Fed {
    /// The same after one more source, which may be one or not.
    fn after(self, may: bool) -> Fed
        ensures { result ≡ after self may }
    {
        match self {
            Fed::Never if may => Fed::Once,
            _ => Fed::Wrongly,
        }
    }
}

/// What is known of each net and of each memory of a module, by number.
#[derive(Drop)]
pub struct Drivers {
    pub nets: Vec<Fed>,
    pub mems: Vec<Fed>,
}

/// The marks of the nets of a module with no source seen.
fn inputs(alloc: Global, module: &Module) -> Result<Vec<Fed>, NoMemory>
    requires { (j : ℕ) (p : Port) → slice_get module.now.ports j ≡ Some p → p.net < length module.now.nets }
    ensures size { IfOk result (λ marks. vec_len marks ≡ length module.now.nets) }
    ensures fed { IfOk result (λ marks. (d : Design) → AreFed d module.now (IsSeen 0 0 0 0) marks.items) }
{
    let mut marks = vec![in alloc; Fed::Never; module.nets.len()]?;
    for place in 0..module.ports.len() {
        let port = module.ports.at(place);
        if port.output {
            continue;
        }
        marks[port.net.index()] = Fed::Input;
    }
    Ok(marks)
}

/// Marks the targets of the assignments.
fn feed_assigns(module: &Module, marks: &mut [Fed])
    requires { (j : ℕ) (a : Assign) → slice_get module.now.assigns j ≡ Some a → a.target < length marks.old }
    ensures { (d : Design) → AreFed d module.now (IsSeen 0 0 0 0) marks.old
        → AreFed d module.now (IsSeen (length module.now.assigns) 0 0 0) marks.new }
{
    for assign in module.assigns.as_slice() {
        let may = !module.is_register(assign.target);
        let number = assign.target.index();
        marks[number] = marks[number].after(may);
    }
}

/// Marks the nets that are joined to the outputs of an instance of `inner`.
fn feed_ports(inner: &Module, instance: &Instance, module: &Module, marks: &mut [Fed])
    requires nets { (j n : ℕ) → slice_get instance.now.nets j ≡ Some n → n < length marks.old }
    requires ports { length instance.now.nets ≡ length inner.now.ports }
    ensures { (d : Design) (a k : ℕ) → slice_get module.now.instances k ≡ Some instance.now
        → slice_get d.modules instance.now.module ≡ Some inner.now
        → AreFed d module.now (IsSeen a k 0 0) marks.old
        → AreFed d module.now (IsSeen a (k + 1) 0 0) marks.new }
{
    for place in 0..inner.ports.len() {
        if !inner.ports.at(place).output {
            continue;
        }
        let net = *instance.nets.at(place);
        let may = !module.is_register(net);
        let number = net.index();
        marks[number] = marks[number].after(may);
    }
}

/// Marks the nets that are joined to the outputs of the instances.
fn feed_instances(design: &Design, module: &Module, marks: &mut [Fed])
    requires formed { IsFormedModule design.now.modules module.now }
    requires size { length marks.old ≡ length module.now.nets }
    ensures { (a : ℕ) → AreFed design.now module.now (IsSeen a 0 0 0) marks.old
        → AreFed design.now module.now (IsSeen a (length module.now.instances) 0 0) marks.new }
{
    for place in 0..module.instances.len() {
        let instance = module.instances.at(place);
        let inner = design.modules.at(instance.module.index());
        feed_ports(inner, instance, module, marks);
    }
}

/// Marks the registers and the memories that the updates write.
fn feed_updates(module: &Module, nets: &mut [Fed], mems: &mut [Fed])
    requires nets { (j : ℕ) (u : Update) → slice_get module.now.updates j ≡ Some u
        → target_net u.target < length nets.old }
    requires mems { (j k : ℕ) (u : Update) → slice_get module.now.updates j ≡ Some u
        → target_mem u.target ≡ Some k → k < length mems.old }
    requires wires { (j : ℕ) (p : Port) → slice_get module.now.ports j ≡ Some p
        → is_reg module.now p.net ≡ false }
    ensures nets { (d : Design) (a k : ℕ) → AreFed d module.now (IsSeen a k 0 0) nets.old
        → AreFed d module.now (IsSeen a k 0 (length module.now.updates)) nets.new }
    ensures mems { AreWritten module.now 0 mems.old
        → AreWritten module.now (length module.now.updates) mems.new }
{
    for place in 0..module.updates.len() {
        match module.updates.at(place).target {
            Target::Reg(net) => {
                let may = module.is_register(net);
                let number = net.index();
                nets[number] = nets[number].after(may);
            }
            Target::Cell(mem, _) => {
                let number = mem.index();
                mems[number] = mems[number].after(true);
            }
        }
    }
}

/// Marks the nets and memories of a module with all that gives them a value.
fn feed_all(design: &Design, module: &Module, nets: &mut [Fed], mems: &mut [Fed])
    requires formed { IsFormedModule design.now.modules module.now }
    requires nets_size { length nets.old ≡ length module.now.nets }
    requires mems_size { length mems.old ≡ length module.now.mems }
    ensures nets { AreFed design.now module.now (IsSeen 0 0 0 0) nets.old
        → AreFed design.now module.now (λ s. Unit {0}) nets.new }
    ensures mems { AreWritten module.now 0 mems.old
        → AreWritten module.now (length module.now.updates) mems.new }
{
    feed_assigns(module, nets);
    feed_instances(design, module, nets);
    feed_updates(module, nets, mems);
}

/// What gives each net of a module its value, and writes each of its memories.
pub fn mark_drivers(alloc: Global, design: &Design, module: &Module) -> Result<Drivers, NoMemory>
    requires { IsFormedModule design.now.modules module.now }
    ensures { IfOk result (AreMarked design.now module.now) }
{
    let mut nets = inputs(alloc, module)?;
    let mut mems = vec![in alloc; Fed::Never; module.mems.len()]?;
    feed_all(design, module, nets.as_mut_slice(), mems.as_mut_slice());
    Ok(Drivers { nets, mems })
}

/// The first place with this mark.
fn first_marked(marks: &[Fed], mark: Fed) -> Option<usize>
    ensures some { IfSome result (IsFirst (λ place. slice_get marks.now place ≡ Some mark)) }
    ensures within { IfSome result (λ place. place < length marks.now) }
    ensures none { IfNone result ((place : ℕ) → slice_get marks.now place ≡ Some mark → ⊥) }
{
    for place in 0..marks.len() {
        if marks[place] == mark {
            return Some(place);
        }
    }
    None
}

/// Tests that no net has a source that it may not have, or two, and no memory two updates.
pub fn two_drivers(alloc: Global, module: &Module, drivers: &Drivers) -> Result<(), RtlError>
    requires nets { vec_len drivers.now.nets ≡ length module.now.nets }
    requires mems { vec_len drivers.now.mems ≡ length module.now.mems }
    ensures ok { OnOk result ((d : Design) → Marks module.now drivers.now d → HasNoTwo d module.now) }
    ensures err { IfErr result (IsNoMemoryOr RtlError.TwoDrivers
        (λ name. (d : Design) → Marks module.now drivers.now d → IsTwoDrivers d module.now name)) }
{
    if let Some(net) = first_marked(drivers.nets.as_slice(), Fed::Wrongly) {
        let name = module.nets.at(net).name.copy(alloc)?;
        return Err(RtlError::TwoDrivers(name));
    }
    if let Some(mem) = first_marked(drivers.mems.as_slice(), Fed::Wrongly) {
        let name = module.mems.at(mem).name.copy(alloc)?;
        return Err(RtlError::TwoDrivers(name));
    }
    Ok(())
}

/// Tests that each net that is no input has a source.
pub fn no_driver(alloc: Global, module: &Module, drivers: &Drivers) -> Result<(), RtlError>
    requires nets { vec_len drivers.now.nets ≡ length module.now.nets }
    ensures ok { OnOk result ((d : Design) → Marks module.now drivers.now d → HasNoTwo d module.now
        → HasDrivers d module.now × HasUpdates module.now) }
    ensures err { IfErr result (IsNoMemoryOr RtlError.NoDriver
        (λ name. (d : Design) → Marks module.now drivers.now d → IsNoDriver d module.now name)) }
{
    match first_marked(drivers.nets.as_slice(), Fed::Never) {
        Some(net) => {
            let name = module.nets.at(net).name.copy(alloc)?;
            Err(RtlError::NoDriver(name))
        }
        None => Ok(()),
    }
}
