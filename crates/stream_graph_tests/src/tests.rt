// Worked kernels, node by node, and graphs that are no kernel.
use crate::make;
use fix_arith::{RoundMode, StreamType};
use mx_base::Text;
use mx_bits::Op;
use std::test::Fail;
use stream_graph::{Builder, Graph, GraphError, Kind, NodeId, Tally};

// The kind of each node of the kernel of three neighbours.
const KINDS: [Kind; 6] = [
    Kind::Input,
    Kind::Offset(-1),
    Kind::Operation(Op::Add, RoundMode::ToNearEven, 0),
    Kind::Offset(1),
    Kind::Operation(Op::Add, RoundMode::ToNearEven, 0),
    Kind::Output,
];

#[test]
fn three_neighbours(rt: HostRuntime) -> Result<(), Fail> {
    let alloc = rt.alloc();
    let mut tally = Tally::new();
    make(alloc, &mut tally)?;
    assert!(rt; (tally.nodes, tally.operands, tally.bytes) == (6, 7, 2));
    let mut graph = Graph::reserve(alloc, &tally)?;
    make(alloc, &mut graph)?;
    let kernel = graph.finish(alloc, Text::from_vec(b"Sum3".to_vec(alloc)?))?;
    assert!(rt; kernel.count() == 6);
    for number in 0..6 {
        let view = kernel.node(NodeId::new(number));
        assert!(rt; view.kind == KINDS[number as usize]);
        assert!(rt; view.t == StreamType::UInt(32));
    }
    assert!(rt; kernel.operands(NodeId::new(4)) == [NodeId::new(2), NodeId::new(3)].as_slice());
    assert!(rt; kernel.port_name(NodeId::new(5)) == b"y".as_slice());
    Ok(())
}

// The node that a graph of one open feed is refused with.
fn refused(error: GraphError) -> Option<NodeId> {
    match error {
        GraphError::Unconnected(node) => Some(node),
        _ => None,
    }
}

#[test]
fn open_feed(rt: HostRuntime) -> Result<(), Fail> {
    let alloc = rt.alloc();
    let t = StreamType::UInt(8);
    let mut tally = Tally::new();
    let _counted = tally.feed(t);
    let mut graph = Graph::reserve(alloc, &tally)?;
    let feed = graph.feed(t);
    let name = Text::from_vec(b"K".to_vec(alloc)?);
    match graph.finish(alloc, name) {
        Ok(_kernel) => assert!(rt; false),
        Err(error) => assert!(rt; refused(error) == Some(feed)),
    }
    Ok(())
}
