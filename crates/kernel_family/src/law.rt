// A causal kernel computes one family of words.
ghost use Rattle.kernel_family.specs.Laws.{HasOneFamily};

use stream_graph::Kernel;

/// Two families that satisfy the equations of a causal kernel in one run have the same words. The
/// function does nothing: its contract is the law.
pub fn one_family(kernel: &Kernel)
    ensures { HasOneFamily kernel.now.nodes }
{
    let _kernel = kernel;
}
