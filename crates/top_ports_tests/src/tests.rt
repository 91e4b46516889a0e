// Lists of ports that are those of a run, and lists with a wrong port.
use mx_base::{List, NoMemory, Text};
use rtl_ir::{Interface, KernelPorts, Module, Net, NetId, Port, ScalarPort, StreamPorts};
use std::alloc::Global;
use std::test::Fail;
use top_ports::*;

// The name, the width and whether it is an output.
type Entry<'a> = (&'a [u8], u8, bool);

const RUN: [Entry<'static>; 11] = [
    (b"clk", 1, false),
    (b"reset", 1, false),
    (b"hold$Double", 1, false),
    (b"ticks$Double", 48, false),
    (b"in$x$data", 8, false),
    (b"in$x$valid", 1, false),
    (b"in$x$ready", 1, true),
    (b"out$y$data", 8, true),
    (b"out$y$valid", 1, true),
    (b"out$y$ready", 1, false),
    (b"done", 1, true),
];

fn text(alloc: Global, bytes: &[u8]) -> Result<Text, NoMemory> {
    Ok(Text::from_vec(bytes.to_vec(alloc)?))
}

fn empty(alloc: Global) -> Result<Module, NoMemory> {
    Ok(Module {
        name: text(alloc, b"top")?,
        ports: List::new(alloc),
        nets: List::new(alloc),
        mems: List::new(alloc),
        assigns: List::new(alloc),
        updates: List::new(alloc),
        instances: List::new(alloc),
    })
}

fn add(alloc: Global, top: &mut Module, entries: &[Entry<'_>]) -> Result<(), NoMemory> {
    for (name, width, output) in entries {
        let Ok(net) = u32::try_from(top.nets.len()) else {
            return Err(NoMemory);
        };
        top.nets.push(Net {
            name: text(alloc, name)?,
            width: *width,
            reg: false,
        })?;
        top.ports.push(Port {
            net: NetId::new(net),
            output: *output,
        })?;
    }
    Ok(())
}

// Adds the ports of the run, where so many of them from a place on are replaced by these.
fn add_changed(
    alloc: Global,
    top: &mut Module,
    change: usize,
    removed: usize,
    put: &[Entry<'_>],
) -> Result<(), NoMemory> {
    for (place, entry) in RUN.iter().enumerate() {
        if place == change {
            add(alloc, top, put)?;
        }
        if place < change || place - change >= removed {
            add(alloc, top, &[*entry])?;
        }
    }
    if change >= RUN.len() {
        add(alloc, top, put)?;
    }
    Ok(())
}

// A module with these ports.
fn changed(
    alloc: Global,
    change: usize,
    removed: usize,
    put: &[Entry<'_>],
) -> Result<Module, NoMemory> {
    let mut top = empty(alloc)?;
    add_changed(alloc, &mut top, change, removed, put)?;
    Ok(top)
}

// Whether a kernel has this name, and its ports stand from this place on.
fn is_kernel(kernel: &KernelPorts, name: &[u8], place: u32) -> bool {
    kernel.name.is(name)
        && kernel.hold == NetId::new(place)
        && kernel.ticks == NetId::new(place.saturating_add(1))
}

// Whether a scalar has these names and this width, and its port stands at this place.
fn is_scalar(scalar: &ScalarPort, names: (&[u8], &[u8]), width: u8, place: u32) -> bool {
    scalar.kernel.is(names.0)
        && scalar.name.is(names.1)
        && scalar.width == width
        && scalar.net == NetId::new(place)
}

// Whether a stream has this name and width, and its ports stand from this place on.
fn is_stream(stream: &StreamPorts, name: &[u8], width: u8, place: u32) -> bool {
    stream.name.is(name)
        && stream.width == width
        && stream.word == NetId::new(place)
        && stream.valid == NetId::new(place.saturating_add(1))
        && stream.ready == NetId::new(place.saturating_add(2))
}

fn is_first_wrong(top: &Module, name: &[u8]) -> bool {
    match first_wrong(top) {
        Some(wrong) => wrong == name,
        None => false,
    }
}

#[test]
fn the_first_wrong_port_is_named(rt: HostRuntime) -> Result<(), Fail> {
    let alloc = rt.alloc();
    let cases: [(usize, usize, &[Entry<'_>], &[u8]); 20] = [
        (10, 1, &[], b"done"),
        (0, 11, &[], b"done"),
        (0, 1, &[], b"reset"),
        (1, 1, &[(b"reset", 1, true)], b"reset"),
        (2, 2, &[], b"in$x$data"),
        (2, 1, &[(b"hold$2", 1, false)], b"hold$2"),
        (3, 1, &[(b"ticks$Double", 47, false)], b"ticks$Double"),
        (3, 1, &[(b"ticks$Triple", 48, false)], b"ticks$Triple"),
        (4, 0, &[(b"scalar$Triple$a", 8, false)], b"scalar$Triple$a"),
        (4, 0, &[(b"scalar$Double$", 8, false)], b"scalar$Double$"),
        (4, 0, &[(b"scalar$Double$a", 8, true)], b"scalar$Double$a"),
        (
            4,
            0,
            &[
                (b"hold$B", 1, false),
                (b"ticks$B", 48, false),
                (b"scalar$B$a", 8, false),
                (b"scalar$Double$a", 8, false),
            ],
            b"scalar$Double$a",
        ),
        (
            4,
            0,
            &[
                (b"scalar$Double$a", 8, false),
                (b"hold$B", 1, false),
                (b"ticks$B", 48, false),
            ],
            b"hold$B",
        ),
        (4, 1, &[(b"in$x$y$data", 8, false)], b"in$x$y$data"),
        (5, 1, &[(b"in$z$valid", 1, false)], b"in$z$valid"),
        (6, 1, &[(b"in$x$ready", 1, false)], b"in$x$ready"),
        (7, 1, &[(b"out$y$data", 8, false)], b"out$y$data"),
        (10, 0, &[(b"in$z$data", 8, false)], b"in$z$data"),
        (10, 1, &[(b"done", 2, true)], b"done"),
        (11, 0, &[(b"more", 1, false)], b"more"),
    ];
    for (place, removed, put, name) in cases {
        let top = changed(alloc, place, removed, put)?;
        assert!(rt; is_first_wrong(&top, name), "at {place}");
    }
    Ok(())
}

#[derive(Debug, Drop)]
struct NoTop;

// What the ports of a module are for, where it has no wrong one.
fn read(alloc: Global, top: &Module) -> Result<Option<Interface>, NoMemory> {
    match first_wrong(top) {
        Some(_) => Ok(None),
        None => Ok(Some(interface(alloc, top)?)),
    }
}

// What the ports of the run are for, where these stand before the one at a place.
fn told(alloc: Global, place: usize, put: &[Entry<'_>]) -> Result<Interface, Fail> {
    let top = changed(alloc, place, 0, put)?;
    let ports = read(alloc, &top)?;
    Ok(ports.ok_or(NoTop)?)
}

#[test]
fn a_run_tells_what_its_ports_are_for(rt: HostRuntime) -> Result<(), Fail> {
    let alloc = rt.alloc();
    let ports = told(alloc, 0, &[])?;
    assert!(rt; matches!(ports.kernels.as_slice(), [a] if is_kernel(a, b"Double", 2)));
    assert!(rt; ports.scalars.len() == 0);
    assert!(rt; matches!(ports.inputs.as_slice(), [x] if is_stream(x, b"x", 8, 4)));
    assert!(rt; matches!(ports.outputs.as_slice(), [y] if is_stream(y, b"y", 8, 7)));
    assert!(rt; ports.done == NetId::new(10));
    Ok(())
}

#[test]
fn kernels_and_scalars_are_told_in_order(rt: HostRuntime) -> Result<(), Fail> {
    let alloc = rt.alloc();
    let put: &[Entry<'_>] = &[
        (b"hold$B_2", 1, false),
        (b"ticks$B_2", 48, false),
        (b"scalar$Double$a", 5, false),
        (b"scalar$B_2$a", 1, false),
    ];
    let ports = told(alloc, 4, put)?;
    assert!(rt;
        matches!(
            ports.kernels.as_slice(),
            [a, b] if is_kernel(a, b"Double", 2) && is_kernel(b, b"B_2", 4)
        )
    );
    assert!(rt;
        matches!(
            ports.scalars.as_slice(),
            [a, b] if is_scalar(a, (b"Double", b"a"), 5, 6) && is_scalar(b, (b"B_2", b"a"), 1, 7)
        )
    );
    Ok(())
}
