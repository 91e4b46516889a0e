// The delays of a node.
ghost use Rattle.std.specs.Prelude.{◌≡◌, IfOk};
ghost use Rattle.kernel_stages.specs.Chains.{signals_of};

use mx_base::{List, NoMemory};
use rtl_build::Signal;
use rtl_delays::Element;
use std::alloc::Global;

/// The delays of a node: its pipeline, whose last delay shows the node's word after its latency,
/// and behind it a delay for each of the waits of the word.
#[derive(Drop)]
pub struct NodeDelays {
    pub pipeline: List<Element>,
    pub waits: List<Element>,
}

impl NodeDelays {
    /// The signals that show the node's word later: after its latency, if it has one, and after
    /// each wait behind that.
    pub fn signals(&self, alloc: Global) -> Result<List<Signal>, NoMemory>
        ensures { IfOk result (λ signals. signals ≡ signals_of self.now) }
    {
        let mut signals = List::new(alloc);
        if let Some(last) = self.pipeline.as_slice().last() {
            signals.push(last.shown())?;
        }
        for wait in self.waits.as_slice() {
            signals.push(wait.shown())?;
        }
        Ok(signals)
    }
}
