// Delays that follow words.
ghost use Rattle.std.specs.Prelude.{◌≡◌, ◌+◌, ◌*◌, ◌≤◌, length, All, IfOk, OnOk};
ghost use Rattle.rtl_build.specs.Signals.{HasSignal};
ghost use Rattle.rtl_delays.specs.Steps.{IsSound};
ghost use Rattle.rtl_delays.specs.Extends.{Extends, AddsNoRegister, KeepsStill};
ghost use Rattle.rtl_delays.specs.Driven.{KeepsUndriven};
ghost use Rattle.rtl_delays.specs.Stored.{stored_bits};
ghost use Rattle.kernel_stages.specs.Chains.{elements_of, last_shown, joined, ring_delays, AreFreeIn};
ghost use Rattle.kernel_stages.specs.Closing.{MayFollow, MayFollowWords, LeavesOthers, AreWritten, Follows};
ghost use Rattle.kernel_stages.specs.Closing.{IsFollowed, AreDelays};

use crate::NodeDelays;
use mx_base::NoMemory;
use rtl_build::{Netlist, Signal};
use rtl_delays::{Element, close_element};

// Lets each delay of a chain follow the one before it, and the first one a word. Answered is the
// signal of the last one, or the word where there is none.
fn close_chain(
    netlist: &mut Netlist,
    run: Signal,
    reset: Signal,
    word: Signal,
    chain: &[Element],
) -> Result<Signal, NoMemory>
    requires sound { IsSound netlist.old }
    requires run { HasSignal netlist.old run }
    requires run_bit { run.width ≡ 1 }
    requires reset { HasSignal netlist.old reset }
    requires reset_bit { reset.width ≡ 1 }
    requires free { AreFreeIn netlist.old chain.now }
    requires word { All (MayFollow netlist.old word) chain.now }
    ensures extends { OnOk result (Extends netlist.old netlist.new) }
    ensures still { OnOk result (KeepsStill netlist.old netlist.new run.net reset.net) }
    ensures others { OnOk result (LeavesOthers netlist.old netlist.new chain.now) }
    ensures written { OnOk result (AreWritten netlist.new chain.now) }
    ensures registers { OnOk result (AddsNoRegister netlist.old netlist.new) }
    ensures undriven { OnOk result (KeepsUndriven netlist.old netlist.new) }
    ensures stored { OnOk result (stored_bits netlist.new ≡ stored_bits netlist.old) }
    ensures nets { OnOk result
        (length netlist.new.nets ≤ length netlist.old.nets + 8 * ring_delays chain.now) }
    ensures follows { OnOk result (Follows netlist.new run.net reset.net word.net chain.now) }
    ensures last { IfOk result (λ last. last ≡ last_shown word chain.now) }
{
    let mut from = word;
    for element in chain {
        close_element(netlist, *element, run, reset, from)?;
        from = element.shown();
    }
    Ok(from)
}

// Lets the pipeline of a node follow its word, and its waits the end of the pipeline.
fn close_node(
    netlist: &mut Netlist,
    run: Signal,
    reset: Signal,
    word: Signal,
    delays: &NodeDelays,
) -> Result<(), NoMemory>
    requires sound { IsSound netlist.old }
    requires run { HasSignal netlist.old run }
    requires run_bit { run.width ≡ 1 }
    requires reset { HasSignal netlist.old reset }
    requires reset_bit { reset.width ≡ 1 }
    requires free { AreFreeIn netlist.old (elements_of delays.now) }
    requires word { All (MayFollow netlist.old word) (elements_of delays.now) }
    ensures extends { OnOk result (Extends netlist.old netlist.new) }
    ensures still { OnOk result (KeepsStill netlist.old netlist.new run.net reset.net) }
    ensures others { OnOk result
        (LeavesOthers netlist.old netlist.new (elements_of delays.now)) }
    ensures written { OnOk result (AreWritten netlist.new (elements_of delays.now)) }
    ensures registers { OnOk result (AddsNoRegister netlist.old netlist.new) }
    ensures undriven { OnOk result (KeepsUndriven netlist.old netlist.new) }
    ensures stored { OnOk result (stored_bits netlist.new ≡ stored_bits netlist.old) }
    ensures nets { OnOk result (length netlist.new.nets
        ≤ length netlist.old.nets + 8 * ring_delays (elements_of delays.now)) }
    ensures follows { OnOk result
        (IsFollowed netlist.new run.net reset.net word delays.now) }
{
    let end = close_chain(netlist, run, reset, word, delays.pipeline.as_slice())?;
    close_chain(netlist, run, reset, end, delays.waits.as_slice())?;
    Ok(())
}

/// Lets the pipeline of each node follow the node's word, and each of its waits the one before it,
/// the first one the end of the pipeline. The delays are those of `start_stages`, or others that
/// nothing writes yet. They advance where `run`, of one bit, is 1; a reset edge begins them anew.
/// So the end of a pipeline shows the word that its node had its latency ago, and each wait what
/// the end of the pipeline showed so many advances ago. The only error is want of memory.
pub fn close_stages(
    netlist: &mut Netlist,
    run: Signal,
    reset: Signal,
    words: &[Signal],
    delays: &[NodeDelays],
) -> Result<(), NoMemory>
    requires sound { IsSound netlist.old }
    requires run { HasSignal netlist.old run }
    requires run_bit { run.width ≡ 1 }
    requires reset { HasSignal netlist.old reset }
    requires reset_bit { reset.width ≡ 1 }
    requires free { AreFreeIn netlist.old (joined delays.now) }
    requires nodes { length words.now ≡ length delays.now }
    requires words { MayFollowWords netlist.old words.now delays.now }
    ensures extends { OnOk result (Extends netlist.old netlist.new) }
    ensures still { OnOk result (KeepsStill netlist.old netlist.new run.net reset.net) }
    ensures others { OnOk result (LeavesOthers netlist.old netlist.new (joined delays.now)) }
    ensures written { OnOk result (AreWritten netlist.new (joined delays.now)) }
    ensures registers { OnOk result (AddsNoRegister netlist.old netlist.new) }
    ensures undriven { OnOk result (KeepsUndriven netlist.old netlist.new) }
    ensures stored { OnOk result (stored_bits netlist.new ≡ stored_bits netlist.old) }
    ensures nets { OnOk result
        (length netlist.new.nets ≤ length netlist.old.nets + 8 * ring_delays (joined delays.now)) }
    ensures delays { OnOk result
        (AreDelays netlist.new run.net reset.net words.now delays.now) }
{
    for node in 0..delays.len() {
        close_node(netlist, run, reset, words[node], &delays[node])?;
    }
    Ok(())
}
