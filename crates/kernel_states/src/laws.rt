// What every kernel keeps of its counters.
ghost use Rattle.std.specs.Prelude.{◌≤◌, ◌*◌, length};
ghost use Rattle.kernel_types.specs.Types.{AreCounting};
ghost use Rattle.kernel_states.specs.States.{state_count, step_nets};

use stream_graph::Kernel;

/// The counters and chains of a kernel have counters, at most 128 of them, of as many bits as their
/// words; a part is one of those of its chain; and there are no more counters than nodes, so that
/// the states of a kernel step by few wires. The function does nothing: its contract is the law.
pub fn digits_are_sound(kernel: &Kernel)
    ensures counting { AreCounting kernel.now.nodes }
    ensures few { step_nets kernel.now.nodes ≤ 18 * length kernel.now.nodes }
    ensures count { state_count kernel.now.nodes ≤ length kernel.now.nodes }
{
    let _kernel = kernel;
}
