// Worked kernels.
ghost use Rattle.std.specs.Prelude.{◌≡◌, ◌+◌, ◌∷◌, [], OnOk, IfOk};
ghost use Rattle.kernel_calls.specs.Laws.{Received, HasRoom};
ghost use Rattle.offset_edges_tests.specs.Calls.{double, self_fed};

use fix_arith::{RoundMode, StreamType};
use mx_base::{NoMemory, Text};
use mx_bits::Op;
use std::alloc::Global;
use stream_graph::{Builder, Graph, GraphError, Kernel, Tally};
use stream_graph_tests::make as make_sum3;

/// The kernel `Double`: a stream added to itself.
pub fn double(alloc: Global) -> Result<Kernel, GraphError> {
    let mut tally = Tally::new();
    make_double(alloc, &mut tally)?;
    let mut graph = Graph::reserve(alloc, &tally)?;
    make_double(alloc, &mut graph)?;
    graph.finish(alloc, Text::from_vec(b"Double".to_vec(alloc)?))
}

/// The kernel `Self`: a feed that is connected to itself.
pub fn self_fed(alloc: Global) -> Result<Kernel, GraphError> {
    let mut tally = Tally::new();
    make_self_fed(&mut tally);
    let mut graph = Graph::reserve(alloc, &tally)?;
    make_self_fed(&mut graph);
    graph.finish(alloc, Text::from_vec(b"Self".to_vec(alloc)?))
}

/// The kernel `Sum3`: three neighbours of a stream, added up.
pub fn sum3(alloc: Global) -> Result<Kernel, GraphError> {
    let mut tally = Tally::new();
    make_sum3(alloc, &mut tally)?;
    let mut graph = Graph::reserve(alloc, &tally)?;
    make_sum3(alloc, &mut graph)?;
    graph.finish(alloc, Text::from_vec(b"Sum3".to_vec(alloc)?))
}

fn make_double<B: Builder>(alloc: Global, builder: &mut B) -> Result<(), NoMemory>
    requires first { B.made builder.old ≡ 0 }
    requires room { HasRoom B.has_room B.receives builder.old double }
    ensures { OnOk result (Received B.receives builder.old double builder.new) }
{
    let t = StreamType::UInt(8);
    let x = builder.input(b"x", t, None);
    let mut operands = Vec::new(alloc);
    operands.push(x)?;
    operands.push(x)?;
    let y = builder.operation(Op::Add, RoundMode::ToNearEven, 0, operands.as_slice(), t);
    let _y = builder.output(b"y", y, None, t);
    Ok(())
}

fn make_self_fed<B: Builder>(builder: &mut B)
    requires first { B.made builder.old ≡ 0 }
    requires room { HasRoom B.has_room B.receives builder.old self_fed }
    ensures { Received B.receives builder.old self_fed builder.new }
{
    let t = StreamType::UInt(8);
    let v = builder.feed(t);
    builder.connect(v, v);
    let _y = builder.output(b"y", v, None, t);
}
