// Which ports may come next.
ghost use Rattle.std.specs.Prelude.{◌≡◌, ◌+◌, ◌<◌, ◌++◌, ℕ, List, Some, None, length, map, take, slice_get, codes, bytes_eq, IfSome, IfNone};
ghost use Rattle.rtl_ir.specs.declared.design.Module.{Module};
ghost use Rattle.rtl_ir.specs.Ports.{input_port, kernel_ports, port_view, ports_of};
ghost use Rattle.top_ports.specs.Shapes.{Name};
ghost use Rattle.top_ports.specs.Roles.{role_view, port_role};
ghost use Rattle.top_ports.specs.Stages.{after_scalar, StageView, IsAt, Stands, Follows, from_kernel, from_ready, from_scalar, next, run, start};

use crate::role::{Part, Role, Side, port_name, port_role};
use rtl_ir::{Module, Port};

/// What stands last before a place, as far as it says what may come next.
#[derive(Clone, Copy)]
pub enum Stage<'a> {
    Start,
    Clock,
    Reset,
    /// `hold$K` of this kernel.
    Hold(&'a [u8]),
    Ticks,
    /// A scalar. The ports are those of its kernel and of the kernels behind that.
    Scalar(&'a [Port]),
    Data(Side, &'a [u8]),
    Valid(Side, &'a [u8]),
    Ready(Side),
    Done,
}

/// Whether a kernel's port `hold$K` is that of the kernel with this name.
fn is_hold_of(top: &Module, hold: &Port, name: &[u8]) -> bool
    ensures { (k : Name) → port_view top.now hold.now ≡ input_port (codes "hold$" ++ k) 1 → result ≡ bytes_eq k name.now }
{
    match port_name(top, hold).strip_prefix(b"hold$") {
        Some(kernel) => kernel == name,
        None => false,
    }
}

/// The ports from the first kernel with this name on, among the ports `hold$K` and `ticks$K` of
/// kernels.
fn from_kernel<'a>(top: &Module, kernels: &'a [Port], name: &[u8]) -> Option<&'a [Port]>
    ensures some { (ks : List Name) → map (port_view top.now) kernels.now ≡ kernel_ports ks
        → IfSome result (λ rest. (js : List Name) × (from_kernel ks name.now ≡ Some (after_scalar js)) × (map (port_view top.now) rest.now ≡ kernel_ports js)) }
    ensures none { (ks : List Name) → map (port_view top.now) kernels.now ≡ kernel_ports ks → IfNone result (from_kernel ks name.now ≡ None) }
{
    let mut rest = kernels;
    while rest.len() >= 2 {
        if is_hold_of(top, &rest[0], name) {
            return Some(rest);
        }
        rest = &rest[2..];
    }
    None
}

/// The stage behind a host stream of this side: behind an input comes an input, an output or the
/// end, and behind an output an output or the end.
fn after_ready<'a>(side: Side, role: Role<'a>) -> Option<Stage<'a>>
    ensures some { (m : Module) → IfSome result (Follows m (from_ready side (role_view role.entry))) }
    ensures none { IfNone result (from_ready side (role_view role.entry) ≡ None) }
{
    match role {
        Role::Stream(Side::Input, Part::Data, name) if side == Side::Input => {
            Some(Stage::Data(Side::Input, name))
        }
        Role::Stream(Side::Output, Part::Data, name) => Some(Stage::Data(Side::Output, name)),
        Role::Done => Some(Stage::Done),
        _ => None,
    }
}

/// The stage behind these kernels, of which the first one may have scalars before it.
fn after_scalar<'a>(top: &Module, kernels: &'a [Port], role: Role<'a>) -> Option<Stage<'a>>
    ensures some { (ks : List Name) → map (port_view top.now) kernels.now ≡ kernel_ports ks
        → IfSome result (Follows top.now (from_scalar ks (role_view role.entry))) }
    ensures none { (ks : List Name) → map (port_view top.now) kernels.now ≡ kernel_ports ks → IfNone result (from_scalar ks (role_view role.entry) ≡ None) }
{
    match role {
        Role::Scalar(kernel, _) => {
            let rest = from_kernel(top, kernels, kernel)?;
            Some(Stage::Scalar(rest))
        }
        _ => after_ready(Side::Input, role),
    }
}

/// The stage behind a port with this role at a place, where it may stand there.
pub fn next_stage<'a>(
    top: &'a Module,
    place: usize,
    stage: Stage<'a>,
    role: Role<'a>,
) -> Option<Stage<'a>>
    requires within { place < length top.now.ports }
    requires stands { Stands top.now place stage }
    ensures some { (q : StageView) → IsAt top.now place stage.entry q → IfSome result (Follows top.now (next q (role_view role.entry))) }
    ensures none { (q : StageView) → IsAt top.now place stage.entry q → IfNone result (next q (role_view role.entry) ≡ None) }
{
    match stage {
        Stage::Start => match role {
            Role::Clock => Some(Stage::Clock),
            _ => None,
        },
        Stage::Clock => match role {
            Role::Reset => Some(Stage::Reset),
            _ => None,
        },
        Stage::Reset => match role {
            Role::Hold(kernel) => Some(Stage::Hold(kernel)),
            _ => None,
        },
        Stage::Hold(kernel) => match role {
            Role::Ticks(name) if name == kernel => Some(Stage::Ticks),
            _ => None,
        },
        Stage::Ticks => match role {
            Role::Hold(kernel) => Some(Stage::Hold(kernel)),
            _ => after_scalar(top, &top.ports.as_slice()[2..place], role),
        },
        Stage::Scalar(kernels) => after_scalar(top, kernels, role),
        Stage::Data(side, name) => match role {
            Role::Stream(other, Part::Valid, again) if other == side && again == name => {
                Some(Stage::Valid(side, name))
            }
            _ => None,
        },
        Stage::Valid(side, name) => match role {
            Role::Stream(other, Part::Ready, again) if other == side && again == name => {
                Some(Stage::Ready(side))
            }
            _ => None,
        },
        Stage::Ready(side) => after_ready(side, role),
        Stage::Done => None,
    }
}
