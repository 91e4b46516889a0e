// Laws of delays, each the contract of a function that does nothing.
ghost use Rattle.std.specs.Prelude.{◌≡◌, ◌+◌, ◌<◌, ◌≤◌, ◌^◌, ℕ, List, length, slice_index, All};
ghost use Rattle.rtl_ir.specs.declared.design.Module.{Module};
ghost use Rattle.rtl_build.specs.declared.signal.Signal.{Signal};
ghost use Rattle.rtl_ir.specs.Value.{Family};
ghost use Rattle.rtl_delays.specs.Delays.{IsDelay, IsTap, of_net};
ghost use Rattle.rtl_delays.specs.Rings.{IsPointerWidth};
ghost use Rattle.rtl_delays.specs.Elements.{shown, HasElement};
ghost use Rattle.kernel_stages.specs.declared.node.NodeDelays.{NodeDelays};
ghost use Rattle.kernel_stages.specs.Numbers.{place_bits, waits_at};
ghost use Rattle.kernel_stages.specs.Numbers.{register_count, wait_count, ring_count};
ghost use Rattle.kernel_stages.specs.Chains.{word_at, delays_at, end_at, element_at, joined};
ghost use Rattle.kernel_stages.specs.Chains.{ring_delays, AreChains, AreWide};
ghost use Rattle.kernel_stages.specs.Closing.{AreWords, MayFollowWords, AreDelays};

/// A pointer has the fewest bits that hold each number below that of its words, and a delay of one
/// advance has none.
pub fn pointer_sizes()
    ensures one { place_bits 1 ≡ 0 }
    ensures fewest { (words : ℕ) → 2 ≤ words → words ≤ 2 ^ 32
        → IsPointerWidth words (place_bits words) }
{}

/// There is one delay for each advance of a latency and one for each wait, and of delays that stand
/// in a module the rings are those of the waits that come more than one advance after the one
/// before.
pub fn delay_counts()
    ensures { (m : Module) (latencies : List ℕ) (waits : List (List ℕ)) (delays : List NodeDelays)
        → AreChains latencies waits delays → All (HasElement m) (joined delays)
        → (length (joined delays) ≡ register_count latencies + wait_count waits)
        × (ring_delays (joined delays) ≡ ring_count waits) }
{}

/// The delays of `start_stages` may follow words of the widths for which they were started.
pub fn followed_words()
    ensures { (m : Module) (widths : List ℕ) (words : List Signal) (delays : List NodeDelays)
        → AreWide widths delays → AreWords m widths words delays → MayFollowWords m words delays }
{}

/// After `close_stages`, the end of a node's pipeline shows the word that the node had its latency
/// ago, and each of its waits, so many advances later, whatever value the end of the pipeline
/// shows.
pub fn kept_words()
    ensures word { (m : Module) (run reset : ℕ) (words : List Signal) (delays : List NodeDelays)
        → AreDelays m run reset words delays
        → (latencies : List ℕ) (waits : List (List ℕ)) → AreChains latencies waits delays
        → (u : ℕ) → u < length delays
        → IsTap m run reset (of_net (word_at words u).net) (end_at words delays u).net
        (slice_index latencies u) }
    ensures waits { (m : Module) (run reset : ℕ) (words : List Signal) (delays : List NodeDelays)
        → AreDelays m run reset words delays
        → (latencies : List ℕ) (waits : List (List ℕ)) → AreChains latencies waits delays
        → (u i : ℕ) → u < length delays → i < length (delays_at delays u).waits
        → (from : Family → ℕ) (behind : ℕ)
        → IsTap m run reset from (end_at words delays u).net behind
        → IsDelay m run reset from (shown (element_at (delays_at delays u).waits i)).net
        (behind + slice_index (waits_at waits u) i) }
{}
