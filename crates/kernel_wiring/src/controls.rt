// The controls of a kernel's ports.
ghost use Rattle.std.specs.Prelude.{◌≡◌, ◌<◌, length, All, IfOk};
ghost use Rattle.kernel_wiring.specs.Words.{reads_at, control_at, IsReadIn};
ghost use Rattle.kernel_wiring.specs.Controls.{AreThere, AreControls};

use crate::taps::read_signal;
use kernel_layout::Layout;
use mx_base::{List, NoMemory};
use rtl_build::Signal;
use std::alloc::Global;
use stream_graph::{Kernel, Kind, NodeId};

// The signal of the control of a node, if it is a port with one: an input's first operand, or an
// output's second one.
fn control_of(
    kernel: &Kernel,
    layout: &Layout,
    late: &[List<Signal>],
    words: &[Signal],
    node: NodeId,
) -> Option<Signal>
    requires node { node < length kernel.now.nodes }
    requires layout { length layout.now.reads ≡ length kernel.now.nodes }
    requires reads { All (IsReadIn layout.now late.now words.now)
        (reads_at layout.now node) }
    ensures { result ≡ control_at kernel.now.nodes layout.now late.now words.now node }
{
    let place = match kernel.node(node).kind {
        Kind::Input => 0,
        Kind::Output => 1,
        _ => return None,
    };
    let read = layout.reads.at(node.index()).as_slice().get(place)?;
    Some(read_signal(layout, late, words, *read))
}

/// The signals of the controls of a kernel's ports, for each node, in node order: `None` where it
/// is no port with a control. `words` has a signal for each node, and `late` for each node the
/// signals that show its word later. The only error is `NoMemory`.
pub fn port_controls(
    alloc: Global,
    kernel: &Kernel,
    layout: &Layout,
    late: &[List<Signal>],
    words: &[Signal],
) -> Result<Vec<Option<Signal>>, NoMemory>
    requires layout { length layout.now.reads ≡ length kernel.now.nodes }
    requires reads { AreThere layout.now late.now words.now kernel.now.nodes }
    ensures { IfOk result (λ controls.
        AreControls kernel.now.nodes layout.now late.now words.now controls.items) }
{
    let mut controls = Vec::new(alloc);
    for number in 0..kernel.count() {
        controls.push(control_of(kernel, layout, late, words, NodeId::new(number)))?;
    }
    Ok(controls)
}
