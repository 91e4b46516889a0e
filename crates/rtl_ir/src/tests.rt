use crate::{Assign, Design, Expr, Module, Net, NetId, Port, RtlError};
use mx_base::{List, NoMemory, Text};
use std::alloc::{AllocError, Global};
use std::test::Fail;

fn wire(alloc: Global, name: &[u8]) -> Result<Net, AllocError> {
    Ok(Net {
        name: Text::from_vec(name.to_vec(alloc)?),
        width: 1,
        reg: false,
    })
}

// A module whose output is its reset turned.
fn turned(alloc: Global) -> Result<Module, AllocError> {
    let ports = [(0, false), (1, false), (2, true)].map(|(net, output)| Port {
        net: NetId::new(net),
        output,
    });
    let assign = Assign {
        target: NetId::new(2),
        expr: Expr::Not(NetId::new(1)),
    };
    let nets = [
        wire(alloc, b"clk")?,
        wire(alloc, b"reset")?,
        wire(alloc, b"y")?,
    ];
    Ok(Module {
        name: Text::from_vec(b"turned".to_vec(alloc)?),
        ports: List::from_vec(Vec::from_array(alloc, ports)?),
        nets: List::from_vec(Vec::from_array(alloc, nets)?),
        mems: List::new(alloc),
        assigns: List::from_vec(Vec::from_array(alloc, [assign])?),
        updates: List::new(alloc),
        instances: List::new(alloc),
    })
}

#[test]
fn a_design_is_made(rt: HostRuntime) -> Result<(), Fail> {
    let alloc = rt.alloc();
    let design = Design {
        modules: List::from_vec(Vec::from_array(alloc, [turned(alloc)?])?),
    };
    assert_eq!(rt; design.modules.len(), 1);
    for module in design.modules.as_slice() {
        assert_eq!(rt; module.ports.len(), module.nets.len());
    }
    assert!(rt; matches!(RtlError::from(NoMemory), RtlError::NoMemory));
    Ok(())
}
