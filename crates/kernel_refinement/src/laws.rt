// The laws of kernel modules.
ghost use Rattle.std.specs.Prelude.{◌≡◌, ◌+◌, ℕ, suc, List};
ghost use Rattle.mx_bits.specs.declared.word.Word.{Word};
ghost use Rattle.cycle_find.specs.Constraints.{Numbers};
ghost use Rattle.rtl_ir.specs.declared.design.Module.{Module};
ghost use Rattle.rtl_ir.specs.Value.{Family, Contents};
ghost use Rattle.rtl_ir.specs.Grow.{Holds};
ghost use Rattle.rtl_delays.specs.Delays.{IsTap, of_net};
ghost use Rattle.stream_graph.specs.declared.node.Node.{Node};
ghost use Rattle.offset_edges.specs.declared.edge.Edge.{Edge};
ghost use Rattle.offset_edges.specs.Walks.{IsCausal};
ghost use Rattle.kernel_control.specs.Ports.{ModuleNets};
ghost use Rattle.kernel_control.specs.Refines.{RunsAs};
ghost use Rattle.kernel_refinement.specs.Built.{Layout, IsBuilt};
ghost use Rattle.kernel_refinement.specs.Sum.{sum_module, sum_nets_of, sum_nodes, sum_times};
ghost use Rattle.kernel_refinement.specs.Direct.{NoDirectLoop};
ghost use Rattle.kernel_refinement.specs.States.{IsCounter, IsKeeper};
ghost use Rattle.kernel_refinement.specs.States.{IsStore, IsPosition, IsStepping};

/// A module that is built of the parts of a kernel at its times runs as the kernel at these times:
/// from any contents, after a reset edge, over any offers, room and holds. The function does
/// nothing: its contract is the law.
pub fn built_runs()
    ensures { (m : Module) (nodes : List Node) (ticks times : ℕ → ℕ) (q : ModuleNets) (run : ℕ)
        (l : Layout) → IsBuilt m nodes ticks times q run l → RunsAs m q nodes times }
{}

/// Over the edges of a causal kernel no node reads itself without latency and delay, whatever the
/// times are. So there is an order in which each node comes after those whose words it reads in the
/// same edge of the clock. The function does nothing: its contract is the law.
pub fn no_direct_loop()
    ensures { (edges : List Edge) (ticks : ℕ → ℕ) (times : Numbers) → IsCausal edges
        → NoDirectLoop ticks times edges }
{}

/// A register that a reset edge clears, and that takes a net's word at each advance at which
/// another net is 1, keeps these words. The function does nothing: its contract is the law.
pub fn registers_keep()
    ensures { (m : Module) (run reset on from to : ℕ) → IsStore m run reset on from to
        → IsKeeper m run reset on from to }
{}

/// A register that a reset edge clears, and that goes on to its next word at each advance from a
/// position on, has in each tick the tick's word, if that begins with 0. The function does nothing:
/// its contract is the law.
pub fn registers_count()
    ensures { (m : Module) (run reset position time : ℕ) (next : ℕ → ℕ) (to : ℕ)
        → IsPosition m run reset position → IsStepping m run reset position time next to
        → (word : ℕ → ℕ) → word 0 ≡ 0 → ((t : ℕ) → next (word t) ≡ word (suc t))
        → IsCounter m run reset to time word }
{}

/// A net that has a part of the word of another one, which is that of a counter so many advances
/// ago, counts too, so many advances later. The function does nothing: its contract is the law.
pub fn parts_count()
    ensures { (m : Module) (run reset from tap to time late : ℕ) (word other part : ℕ → ℕ)
        → IsCounter m run reset from time word → IsTap m run reset (of_net from) tap late
        → ((c : Contents) (f : Family) → Holds m c f → f to ≡ part (f tap))
        → ((t : ℕ) → part (word t) ≡ other t)
        → IsCounter m run reset to (time + late) other }
{}

/// The netlist of the sum of all words so far, whose sum takes one advance, runs as its kernel, for
/// every width. The function does nothing: its contract is the law.
pub fn sum_runs()
    ensures { (w : ℕ) (one nothing : Word) → one.bits ≡ 1 → nothing.bits ≡ 0
        → RunsAs (sum_module w one nothing) sum_nets_of (sum_nodes w) sum_times }
{}
