// What stays of the ports while a module grows, the contract of a function that does nothing.
ghost use Rattle.std.specs.Prelude.{◌≡◌, ℕ, List};
ghost use Rattle.rtl_ir.specs.declared.design.Module.{Module};
ghost use Rattle.rtl_ir.specs.Grow.{Grows};
ghost use Rattle.rtl_ir.specs.Ports.{ports_of};
ghost use Rattle.rtl_delays.specs.Partial.{IsPartial};
ghost use Rattle.stream_graph.specs.declared.node.Node.{Node};
ghost use Rattle.kernel_control.specs.Ports.{nets_of};
ghost use Rattle.kernel_ports.specs.HasKernelPorts.{HasNamedPorts};

/// A module that grows keeps its ports, their names and their nets: what acceptance asks of the
/// ports of a finished module, the list of them, and the nets by which a run sees them.
pub fn ports_kept()
    ensures named { (old new : Module) → IsPartial old → Grows old new → new.name ≡ old.name
        → HasNamedPorts old → HasNamedPorts new }
    ensures ports { (old new : Module) → IsPartial old → Grows old new
        → ports_of new ≡ ports_of old }
    ensures nets { (old new : Module) (nodes : List Node) (position : ℕ) → Grows old new
        → nets_of nodes new position ≡ nets_of nodes old position }
{}
