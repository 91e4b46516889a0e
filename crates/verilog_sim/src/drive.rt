// The values that a call gives to the ports of an interface.
ghost use Rattle.std.specs.Prelude.{◌≡◌, ℕ, ◌<◌, ◌+◌, length, Some, slice_get, slice_index, slice_index_or};
ghost use Rattle.rtl_ir.specs.declared.interface.KernelPorts.{KernelPorts};
ghost use Rattle.rtl_ir.specs.declared.interface.ScalarPort.{ScalarPort};
ghost use Rattle.rtl_ir.specs.declared.interface.StreamPorts.{StreamPorts};
ghost use Rattle.verilog_sim.specs.Calls.{nothing};
ghost use Rattle.verilog_sim.specs.Gifts.{Every, gifts, kernel_gifts, scalar_gifts, input_gifts, output_gifts, written};

use crate::Offer;
use crate::stimulus::{Stimulus, bit_at, bit_of};
use crate::values::Values;
use rtl_ir::{Interface, KernelPorts, ScalarPort, StreamPorts};

/// Whether each kernel is held, and its ticks.
fn drive_kernels(kernels: &[KernelPorts], stimulus: &Stimulus<'_>, values: &mut Values)
    requires nets { (k : ℕ) (x : KernelPorts) → slice_get kernels.now k ≡ Some x
        → (x.hold < length values.old) × (x.ticks < length values.old) }
    ensures { values.new
        ≡ written values.old (kernel_gifts stimulus.now.steady.now stimulus.now.holds.now 0 kernels.now) }
{
    for (k, kernel) in kernels.iter().enumerate() {
        values.set(kernel.hold, bit_at(stimulus.holds, k));
        values.set(kernel.ticks, word_at(stimulus.steady, k));
    }
}

/// The scalars, which stand behind the ticks of the kernels.
fn drive_scalars(
    scalars: &[ScalarPort],
    kernels: usize,
    stimulus: &Stimulus<'_>,
    values: &mut Values,
)
    requires nets { (k : ℕ) (x : ScalarPort) → slice_get scalars.now k ≡ Some x
        → x.net < length values.old }
    requires many { kernels + length scalars.now ≡ length stimulus.now.steady.now }
    ensures { values.new
        ≡ written values.old (scalar_gifts stimulus.now.steady.now kernels scalars.now) }
{
    for (k, scalar) in scalars.iter().enumerate() {
        values.set(scalar.net, word_at(stimulus.steady, kernels + k));
    }
}

/// What is offered at each host input.
fn drive_inputs(inputs: &[StreamPorts], stimulus: &Stimulus<'_>, values: &mut Values)
    requires nets { (k : ℕ) (x : StreamPorts) → slice_get inputs.now k ≡ Some x
        → (x.word < length values.old) × (x.valid < length values.old) }
    ensures { values.new ≡ written values.old (input_gifts stimulus.now.offers.now 0 inputs.now) }
{
    for (k, input) in inputs.iter().enumerate() {
        let offer = offer_at(stimulus.offers, k);
        values.set(input.word, offer.word);
        values.set(input.valid, bit_of(offer.valid));
    }
}

/// Whether each host output is accepted.
fn drive_outputs(outputs: &[StreamPorts], stimulus: &Stimulus<'_>, values: &mut Values)
    requires nets { (k : ℕ) (x : StreamPorts) → slice_get outputs.now k ≡ Some x
        → x.ready < length values.old }
    ensures { values.new ≡ written values.old (output_gifts stimulus.now.accepts.now 0 outputs.now) }
{
    for (k, output) in outputs.iter().enumerate() {
        values.set(output.ready, bit_at(stimulus.accepts, k));
    }
}

/// The word at a place, and 0 past the end.
fn word_at(words: &[u128], k: usize) -> u128
    ensures { result ≡ slice_index words.now k }
{
    if k < words.len() { words[k] } else { 0 }
}

/// The offer at a place, and none past the end.
fn offer_at(offers: &[Offer], k: usize) -> Offer
    ensures { result ≡ slice_index_or offers.now k nothing }
{
    if k < offers.len() {
        offers[k]
    } else {
        Offer {
            valid: false,
            word: 0,
        }
    }
}

/// Gives each input of the interface its value.
pub(crate) fn drive(interface: &Interface, stimulus: &Stimulus<'_>, values: &mut Values)
    requires nets { Every (λ (g : ℕ × ℕ). g.0 < length values.old)
        (gifts interface.now stimulus.now.reset stimulus.now.steady.now stimulus.now.offers.now
        stimulus.now.accepts.now stimulus.now.holds.now) }
    requires many { length interface.now.kernels + length interface.now.scalars
        ≡ length stimulus.now.steady.now }
    ensures { values.new ≡ written values.old
        (gifts interface.now stimulus.now.reset stimulus.now.steady.now stimulus.now.offers.now
        stimulus.now.accepts.now stimulus.now.holds.now) }
{
    values.set(interface.clock, 0);
    values.set(interface.reset, bit_of(stimulus.reset));
    let kernels = interface.kernels.as_slice();
    drive_kernels(kernels, stimulus, values);
    drive_scalars(
        interface.scalars.as_slice(),
        kernels.len(),
        stimulus,
        values,
    );
    drive_inputs(interface.inputs.as_slice(), stimulus, values);
    drive_outputs(interface.outputs.as_slice(), stimulus, values);
}
