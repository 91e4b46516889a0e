// The law on the size of designs, the contract of a function that does nothing.
ghost use Rattle.project_sizes.specs.Sized.{ProjectIsSized};

/// The bits that the design of a project stores, over all instances, are those of the modules of
/// its kernels and of its FIFOs, whatever the depths of its links. Its nets, its parts and the
/// bytes of the names in it are few, by the kernels, the lengths of their names, their scalars,
/// inputs and outputs, the streams of the host and the links. The ports of the top module are those
/// of the project's shape, the ports of each module are its first nets, and the names are such as a
/// text has where those of the kernels' modules are.
pub fn project_is_sized()
    ensures { ProjectIsSized }
{}
