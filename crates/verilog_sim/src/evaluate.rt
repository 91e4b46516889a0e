// One edge of a flat module, from its registers and inputs on.
ghost use Rattle.std.specs.Prelude.{◌≡◌, ℕ, ◌+◌, ◌<◌, ◌++◌, List, length, Some, slice_get};
ghost use Rattle.rtl_ir.specs.declared.design.Module.{Module};
ghost use Rattle.rtl_ir.specs.declared.design.Assign.{Assign};
ghost use Rattle.rtl_ir.specs.declared.interface.StreamPorts.{StreamPorts};
ghost use Rattle.rtl_ir.specs.declared.design.Update.{Update};
ghost use Rattle.rtl_ir.specs.Interfaces.{stream_channel};
ghost use Rattle.verilog_sim.specs.declared.offer.Event.{Event};
ghost use Rattle.verilog_sim.specs.Calls.{event_of};
ghost use Rattle.verilog_sim.specs.Contents.{family_of};
ghost use Rattle.verilog_sim.specs.Compiled.{AreInstructionsOf};
ghost use Rattle.verilog_sim.specs.Batches.{instructions_of_all};
ghost use Rattle.verilog_sim.specs.Runnable.{IsPartOf};
ghost use Rattle.verilog_sim.specs.Gifts.{AreNetsOf};
ghost use Rattle.verilog_sim.specs.Simulates.{AreKept, AreValues, IsReady, IsProgramOf, IsEvaluatedBy};
ghost use Rattle.verilog_sim.specs.Simulates.{IsStepped, IsAnswered};
ghost use Rattle.verilog_sim.specs.Updates.{held_by};

use crate::Event;
use crate::batch::Batch;
use crate::clock::{clock, load};
use crate::compile::Program;
use crate::drive::drive;
use crate::memory::Memory;
use crate::settle::settle;
use crate::stimulus::Stimulus;
use crate::values::Values;
use rtl_ir::{Interface, StreamPorts, Update};

/// Gives nets of a flat module their values: inputs and the targets of these batches. The registers
/// have theirs before.
pub(crate) fn evaluate(
    interface: &Interface,
    batches: &[Batch],
    stimulus: &Stimulus<'_>,
    memories: &[Memory],
    values: &mut Values,
)
    requires { (m : Module) × (assigns : List Assign) × (updates : List Update) × (held : List ℕ)
        × IsReady m updates interface.now stimulus.now.steady.now stimulus.now.offers.now
        held values.old memories.now
        × IsPartOf m assigns × AreInstructionsOf m assigns (instructions_of_all batches.now) }
    // each module for which all is there
    ensures { (m : Module) (assigns : List Assign) (updates : List Update) (held : List ℕ)
        → IsReady m updates interface.now stimulus.now.steady.now stimulus.now.offers.now
        held values.old memories.now
        → IsPartOf m assigns → AreInstructionsOf m assigns (instructions_of_all batches.now)
        → IsEvaluatedBy m assigns interface.now stimulus.now.reset stimulus.now.steady.now
        stimulus.now.offers.now stimulus.now.accepts.now stimulus.now.holds.now held memories.now
        values.new }
{
    drive(interface, stimulus, values);
    settle(batches, memories, values);
}

/// One edge: gives each net its value, and writes memories, and ahead what registers hold then.
pub(crate) fn step(
    updates: &[Update],
    interface: &Interface,
    program: &Program,
    stimulus: &Stimulus<'_>,
    ahead: &mut Values,
    memories: &mut [Memory],
    values: &mut Values,
)
    requires { (m : Module) × (origins : List ℕ) × (net : ℕ)
        × IsReady m updates.now interface.now stimulus.now.steady.now stimulus.now.offers.now
        (held_by updates.now ahead.old) ahead.old memories.old
        × AreValues m values.old memories.old
        × IsProgramOf m origins net program.now }
    // each module for which all is there
    ensures { (m : Module) (origins : List ℕ) (net : ℕ)
        → IsReady m updates.now interface.now stimulus.now.steady.now stimulus.now.offers.now
        (held_by updates.now ahead.old) ahead.old memories.old
        → AreValues m values.old memories.old
        → IsProgramOf m origins net program.now
        → AreKept m interface.now stimulus.now.steady.now (held_by updates.now ahead.new) ahead.new
        memories.new
        × AreValues m values.new memories.new
        × IsStepped m origins interface.now stimulus.now.reset stimulus.now.steady.now
        stimulus.now.offers.now stimulus.now.accepts.now stimulus.now.holds.now
        (held_by updates.now ahead.old) memories.old values.new (held_by updates.now ahead.new)
        memories.new }
{
    let batches = program.edge.as_slice();
    load(updates, program.narrow, ahead, values);
    evaluate(interface, batches, stimulus, memories, values);
    clock(updates, program.narrow, values, ahead, memories);
}

/// Whether the port done is 1. Nets that have no part in that may keep older values.
pub(crate) fn is_done(
    interface: &Interface,
    program: &Program,
    stimulus: &Stimulus<'_>,
    memories: &[Memory],
    values: &mut Values,
) -> bool
    requires { (m : Module) × (origins : List ℕ) × (updates : List Update) × (held : List ℕ)
        × IsReady m updates interface.now stimulus.now.steady.now stimulus.now.offers.now
        held values.old memories.now
        × IsProgramOf m origins interface.now.done program.now }
    // each module for which all is there
    ensures { (m : Module) (origins : List ℕ) (updates : List Update) (held : List ℕ)
        → IsReady m updates interface.now stimulus.now.steady.now stimulus.now.offers.now
        held values.old memories.now
        → IsProgramOf m origins interface.now.done program.now
        → IsAnswered m interface.now.done interface.now stimulus.now.reset stimulus.now.steady.now
        stimulus.now.offers.now stimulus.now.accepts.now stimulus.now.holds.now held memories.now
        values.new result }
{
    let batches = program.feeding.as_slice();
    evaluate(interface, batches, stimulus, memories, values);
    values.get(interface.done) == 1
}

/// What happened at each host stream, the inputs first.
pub(crate) fn tell(interface: &Interface, values: &Values, events: &mut [Event])
    requires nets { (k : ℕ) (x : StreamPorts)
        → slice_get (interface.now.inputs ++ interface.now.outputs) k ≡ Some x
        → AreNetsOf (length values.now) x }
    requires events { length events.old
        ≡ length interface.now.inputs + length interface.now.outputs }
    ensures { (k : ℕ) (x : StreamPorts) (e : Event)
        → slice_get (interface.now.inputs ++ interface.now.outputs) k ≡ Some x
        → slice_get events.new k ≡ Some e
        → e ≡ event_of (family_of values.now) (stream_channel x) }
{
    for k in 0..events.len() {
        events[k] = event_at(stream_at(interface, k), values);
    }
}

/// A host stream by its number, the inputs first.
fn stream_at(interface: &Interface, number: usize) -> &StreamPorts
    requires { number < length interface.now.inputs + length interface.now.outputs }
    ensures { slice_get (interface.now.inputs ++ interface.now.outputs) number
        ≡ Some result.now }
{
    let inputs = interface.inputs.as_slice();
    if number < inputs.len() {
        &inputs[number]
    } else {
        &interface.outputs.as_slice()[number - inputs.len()]
    }
}

/// What happened at a stream.
fn event_at(stream: &StreamPorts, values: &Values) -> Event
    requires nets { AreNetsOf (length values.now) stream.now }
    ensures { result ≡ event_of (family_of values.now) (stream_channel stream.now) }
{
    let valid = values.get(stream.valid);
    let ready = values.get(stream.ready);
    Event {
        moved: valid == 1 && ready == 1,
        word: values.get(stream.word),
    }
}
