// The laws, each the contract of a function that does nothing.
ghost use Rattle.project_streams.specs.Laws.{OneKernelIsBalanced, EqualTicksAreBalanced};

/// Each run of a project of one kernel is balanced.
pub fn one_kernel_is_balanced()
    ensures { OneKernelIsBalanced }
{}

/// Each run of a project whose links have no controls and whose kernels have equally many ticks is
/// balanced.
pub fn equal_ticks_are_balanced()
    ensures { EqualTicksAreBalanced }
{}
