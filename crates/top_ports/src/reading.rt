// The ports of a top module that can be run, read once.
ghost use Rattle.std.specs.Prelude.{◌≡◌, ◌+◌, ◌<◌, ◌^◌, length, option_map, IfOk, IsSome};
ghost use Rattle.rtl_ir.specs.Interfaces.{IsInterface, shape_of};
ghost use Rattle.rtl_ir.specs.Ports.{Shape, net_at};
ghost use Rattle.top_ports.specs.Shapes.{IsTop};
ghost use Rattle.top_ports.specs.Roles.{role_view};
ghost use Rattle.top_ports.specs.Reading.{role_at, kernel_at, scalar_at, stream_at, AreRead};

use crate::role::{Part, Role, Side, port_role};
use mx_base::{List, NoMemory, Text};
use rtl_ir::{Interface, KernelPorts, Module, NetId, ScalarPort, StreamPorts};
use std::alloc::Global;

/// The ports of a top module that can be run, by what they are for.
pub fn interface(alloc: Global, top: &Module) -> Result<Interface, NoMemory>
    requires { (s : Shape) × IsTop top.now s }
    ensures is { IfOk result (IsInterface top.now) }
    ensures shape { (s : Shape) → IsTop top.now s → IfOk result (λ i. shape_of i ≡ s) }
{
    let mut place = 2;
    let kernels = read_kernels(alloc, top, &mut place)?;
    let scalars = read_scalars(alloc, top, &mut place)?;
    let inputs = read_streams(alloc, top, Side::Input, &mut place)?;
    let outputs = read_streams(alloc, top, Side::Output, &mut place)?;
    Ok(Interface {
        clock: net_at(top, 0),
        reset: net_at(top, 1),
        kernels,
        scalars,
        inputs,
        outputs,
        done: net_at(top, place),
    })
}

/// The kernels whose ports stand from a place on. The place is then the one behind them.
fn read_kernels(
    alloc: Global,
    top: &Module,
    place: &mut usize,
) -> Result<List<KernelPorts>, NoMemory>
    ensures { IfOk result (λ kernels. AreRead (kernel_at top.now) 2 place.old kernels place.new) }
{
    let mut kernels = List::new(alloc);
    while let Some(kernel) = kernel_at(alloc, top, *place)? {
        kernels.push(kernel)?;
        *place += 2;
    }
    Ok(kernels)
}

/// The scalars whose ports stand from a place on. The place is then the one behind them.
fn read_scalars(
    alloc: Global,
    top: &Module,
    place: &mut usize,
) -> Result<List<ScalarPort>, NoMemory>
    ensures { IfOk result (λ scalars. AreRead (scalar_at top.now) 1 place.old scalars place.new) }
{
    let mut scalars = List::new(alloc);
    while let Some(scalar) = scalar_at(alloc, top, *place)? {
        scalars.push(scalar)?;
        *place += 1;
    }
    Ok(scalars)
}

/// The host streams of a side whose ports stand from a place on. The place is then the one behind
/// them.
fn read_streams(
    alloc: Global,
    top: &Module,
    side: Side,
    place: &mut usize,
) -> Result<List<StreamPorts>, NoMemory>
    ensures { IfOk result (λ streams. AreRead (stream_at top.now side) 3 place.old streams place.new) }
{
    let mut streams = List::new(alloc);
    while let Some(stream) = stream_at(alloc, top, side, *place)? {
        streams.push(stream)?;
        *place += 3;
    }
    Ok(streams)
}

/// The kernel whose first port stands at a place, where one does.
fn kernel_at(alloc: Global, top: &Module, place: usize) -> Result<Option<KernelPorts>, NoMemory>
    ensures kernel { IfOk result (λ kernel. kernel ≡ kernel_at top.now place) }
    ensures within { IfOk result (λ kernel. IsSome kernel → (place < length top.now.ports) × (place < 2 ^ 63)) }
{
    let Some(Role::Hold(name)) = role_at(top, place) else {
        return Ok(None);
    };
    Ok(Some(KernelPorts {
        name: text(alloc, name)?,
        hold: net_at(top, place),
        ticks: net_at(top, place + 1),
    }))
}

/// The scalar whose port stands at a place, where one does.
fn scalar_at(alloc: Global, top: &Module, place: usize) -> Result<Option<ScalarPort>, NoMemory>
    ensures scalar { IfOk result (λ scalar. scalar ≡ scalar_at top.now place) }
    ensures within { IfOk result (λ scalar. IsSome scalar → (place < length top.now.ports) × (place < 2 ^ 63)) }
{
    let Some(Role::Scalar(kernel, name)) = role_at(top, place) else {
        return Ok(None);
    };
    let net = net_at(top, place);
    Ok(Some(ScalarPort {
        kernel: text(alloc, kernel)?,
        name: text(alloc, name)?,
        width: top.width(net),
        net,
    }))
}

/// The host stream of a side whose first port stands at a place, where one does.
fn stream_at(
    alloc: Global,
    top: &Module,
    side: Side,
    place: usize,
) -> Result<Option<StreamPorts>, NoMemory>
    ensures stream { IfOk result (λ stream. stream ≡ stream_at top.now side place) }
    ensures within { IfOk result (λ stream. IsSome stream → (place < length top.now.ports) × (place < 2 ^ 63)) }
{
    let Some(Role::Stream(other, Part::Data, name)) = role_at(top, place) else {
        return Ok(None);
    };
    if other != side {
        return Ok(None);
    }
    let word = net_at(top, place);
    Ok(Some(StreamPorts {
        name: text(alloc, name)?,
        width: top.width(word),
        word,
        valid: net_at(top, place + 1),
        ready: net_at(top, place + 2),
    }))
}

/// The role of the port at a place, where there is a port and it has one.
fn role_at<'a>(top: &'a Module, place: usize) -> Option<Role<'a>>
    ensures role { option_map role_view result ≡ role_at top.now place }
    ensures within { IsSome result → (place < length top.now.ports) × (place < 2 ^ 63) }
{
    let port = top.ports.as_slice().get(place)?;
    port_role(top, port)
}

/// The net of the port at a place, and the net 0 where there is none.
fn net_at(top: &Module, place: usize) -> NetId
    ensures { result ≡ net_at top.now place }
{
    match top.ports.get(place) {
        Some(port) => port.net,
        None => NetId::new(0),
    }
}

fn text(alloc: Global, bytes: &[u8]) -> Result<Text, NoMemory>
    ensures { IfOk result (λ text. text ≡ bytes.now) }
{
    Ok(Text::from_vec(bytes.to_vec(alloc)?))
}
