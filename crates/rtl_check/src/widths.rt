// The widths of assignments, updates and joined nets.
ghost use Rattle.std.specs.Prelude.{◌≡◌, ◌<◌, ◌↔◌, ℕ, length, slice_get, Some, IsTrue, IfErr, OnOk, IfSome, IfNone};
ghost use Rattle.rtl_ir.specs.declared.design.Design.{Design};
ghost use Rattle.rtl_ir.specs.declared.design.Assign.{Assign};
ghost use Rattle.rtl_ir.specs.declared.design.Update.{Update};
ghost use Rattle.rtl_ir.specs.Value.{width_of};
ghost use Rattle.rtl_ir.specs.Typed.{word_width, target_width, IsSignTyped, IsTyped, IsUpdateTyped};
ghost use Rattle.rtl_ir.specs.Formed.{IsFormedModule, name_of};
ghost use Rattle.rtl_ir.specs.Rules.{Connection, HasWidths};
ghost use Rattle.rtl_ir.specs.Faults.{IsFirst};
ghost use Rattle.rtl_check.specs.FirstFault.{IsBadAssign, IsBadUpdate, IsBadPort, IsBadInstance, IsWidth, name_of_mem};
ghost use Rattle.rtl_check.specs.FirstFault as spec;
ghost use Rattle.rtl_ir.specs.Operands.{target_net, target_mem};
ghost use Rattle.rtl_check.specs.Checked.{IsNoMemoryOr};

use mx_base::Text;
use rtl_ir::{Design, Expr, Instance, MemId, Module, NetId, RtlError, Sign, Target, Update};
use std::alloc::Global;

/// Whether an operator may have operands of these widths, for a target of `width` bits.
fn is_sign_typed(sign: Sign, width: u8, left: u8, right: u8) -> bool
    ensures { IsTrue result ↔ IsSignTyped sign width left right }
{
    match sign {
        Sign::Eq | Sign::Lt => width == 1 && left == right,
        _ => left == width && right == width,
    }
}

/// Whether an expression may be assigned to a net of `width` bits.
fn is_typed(module: &Module, target: u8, expr: Expr) -> bool
    ensures { IsTrue result ↔ IsTyped module.now target expr }
{
    match expr {
        Expr::Net(net) | Expr::Not(net) => module.width(net) == target,
        Expr::Literal(word) => word.width() == target,
        Expr::Binary(sign, left, right) => {
            is_sign_typed(sign, target, module.width(left), module.width(right))
        }
        Expr::Concat(high, low) => u32::from(module.width(high)) + u32::from(module.width(low))
            == u32::from(target),
        Expr::Repeat(times, net) => u32::from(times) * u32::from(module.width(net))
            == u32::from(target),
        Expr::Part(net, high, low) => {
            low <= high
                && high < module.width(net)
                && u32::from(high) + 1 - u32::from(low) == u32::from(target)
        }
        Expr::Choose(test, yes, no) => {
            module.width(test) == 1 && module.width(yes) == target && module.width(no) == target
        }
        Expr::Cell(mem, _) => module.word_width(mem) == target,
    }
}

/// Whether an update's enable has one bit, and its value the width of what it writes.
fn is_update_typed(module: &Module, update: &Update) -> bool
    ensures { IsTrue result ↔ IsUpdateTyped module.now update.now }
{
    let target = match update.target {
        Target::Reg(net) => module.width(net),
        Target::Cell(mem, _) => module.word_width(mem),
    };
    module.width(update.enable) == 1 && module.width(update.value) == target
}

/// The place of the first assignment that breaks a width rule.
fn bad_assign(module: &Module) -> Option<usize>
    ensures some { IfSome result (IsFirst (IsBadAssign module.now)) }
    ensures within { IfSome result (λ j. j < length module.now.assigns) }
    ensures none { IfNone result ((j : ℕ) (a : Assign) → slice_get module.now.assigns j ≡ Some a
        → IsTyped module.now (width_of module.now a.target) a.expr) }
{
    for place in 0..module.assigns.len() {
        let assign = module.assigns.at(place);
        if !is_typed(module, module.width(assign.target), assign.expr) {
            return Some(place);
        }
    }
    None
}

/// The place of the first update that breaks a width rule.
fn bad_update(module: &Module) -> Option<usize>
    ensures some { IfSome result (IsFirst (IsBadUpdate module.now)) }
    ensures within { IfSome result (λ j. j < length module.now.updates) }
    ensures none { IfNone result ((j : ℕ) (u : Update) → slice_get module.now.updates j ≡ Some u
        → IsUpdateTyped module.now u) }
{
    for place in 0..module.updates.len() {
        let update = module.updates.at(place);
        if !is_update_typed(module, update) {
            return Some(place);
        }
    }
    None
}

/// The place of the first port of an instance of `inner` that has another width than the net that it
/// is joined to.
fn bad_place(inner: &Module, instance: &Instance, module: &Module) -> Option<usize>
    requires { length instance.now.nets ≡ length inner.now.ports }
    ensures some { IfSome result (λ j. (d : Design) (k : ℕ) → slice_get module.now.instances k ≡ Some instance.now
        → slice_get d.modules instance.now.module ≡ Some inner.now → IsFirst (IsBadPort d module.now k) j) }
    ensures within { IfSome result (λ j. j < length instance.now.nets) }
    ensures none { IfNone result ((d : Design) (k : ℕ) → slice_get module.now.instances k ≡ Some instance.now
        → slice_get d.modules instance.now.module ≡ Some inner.now → (j : ℕ) (e : Connection d module.now k j)
        → width_of e.inner e.port.net ≡ width_of module.now e.net) }
{
    for place in 0..inner.ports.len() {
        let port = inner.ports.at(place);
        let net = *instance.nets.at(place);
        if inner.width(port.net) != module.width(net) {
            return Some(place);
        }
    }
    None
}

/// The name of the net that is joined to the first port of an instance that breaks a width rule.
fn bad_port<'a>(design: &Design, module: &'a Module) -> Option<&'a Text>
    requires { IsFormedModule design.now.modules module.now }
    ensures some { IfSome result (λ name. (k : ℕ) × (j : ℕ) × (e : Connection design.now module.now k j)
        × IsFirst (IsBadInstance design.now module.now) k × IsFirst (IsBadPort design.now module.now k) j
        × (name.now ≡ name_of module.now e.net)) }
    ensures none { IfNone result ((k j : ℕ) (e : Connection design.now module.now k j)
        → width_of e.inner e.port.net ≡ width_of module.now e.net) }
{
    for number in 0..module.instances.len() {
        let instance = module.instances.at(number);
        let inner = design.modules.at(instance.module.index());
        if let Some(place) = bad_place(inner, instance, module) {
            return Some(net_name(module, *instance.nets.at(place)));
        }
    }
    None
}

/// The name of a net.
pub fn net_name(module: &Module, net: NetId) -> &Text
    requires { net < length module.now.nets }
    ensures { result.now ≡ name_of module.now net }
{
    &module.nets.at(net.index()).name
}

/// The name of a memory.
fn mem_name(module: &Module, mem: MemId) -> &Text
    requires { mem < length module.now.mems }
    ensures { result.now ≡ name_of_mem module.now mem }
{
    &module.mems.at(mem.index()).name
}

/// The name of what an update writes.
fn target_name(module: &Module, target: Target) -> &Text
    requires net { target_net target < length module.now.nets }
    requires mem { (k : ℕ) → target_mem target ≡ Some k → k < length module.now.mems }
    ensures { result.now ≡ spec.target_name module.now target }
{
    match target {
        Target::Reg(net) => net_name(module, net),
        Target::Cell(mem, _) => mem_name(module, mem),
    }
}

/// The name of the first target whose width breaks a rule: of assignments, then updates, then ports
/// of instances.
fn bad_width<'a>(design: &Design, module: &'a Module) -> Option<&'a Text>
    requires { IsFormedModule design.now.modules module.now }
    ensures some { IfSome result (λ name. IsWidth design.now module.now name.now) }
    ensures none { IfNone result (HasWidths design.now module.now) }
{
    if let Some(place) = bad_assign(module) {
        return Some(net_name(module, module.assigns.at(place).target));
    }
    if let Some(place) = bad_update(module) {
        return Some(target_name(module, module.updates.at(place).target));
    }
    if let Some(name) = bad_port(design, module) {
        return Some(name);
    }
    None
}

/// Tests that no assignment, no update and no port of an instance breaks a width rule.
pub fn widths_fit(alloc: Global, design: &Design, module: &Module) -> Result<(), RtlError>
    requires { IsFormedModule design.now.modules module.now }
    ensures ok { OnOk result (HasWidths design.now module.now) }
    ensures err { IfErr result (IsNoMemoryOr RtlError.Width (IsWidth design.now module.now)) }
{
    match bad_width(design, module) {
        Some(name) => {
            let name = name.copy(alloc)?;
            Err(RtlError::Width(name))
        }
        None => Ok(()),
    }
}
