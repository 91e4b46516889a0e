// Worked sources, beside those of `kernel_eval_tests`.

/// A kernel alone, whose words pass.
pub const PASS: &str = "class Pass extends Kernel {
  Pass(KernelParameters p) {
    super(p);
    DFEVar x = io.input(\"x\", dfeUInt(8));
    io.output(\"y\", x, dfeUInt(8));
  }
}
";

/// The first kernel has a feed to which nothing is connected, and the constructor of the second
/// one connects what is no feed.
pub const LOOSE_WRONG: &str = "class Loose extends Kernel {
  Loose(KernelParameters p) {
    super(p);
    DFEVar v = dfeUInt(8).newInstance(this);
    io.output(\"y\", v, dfeUInt(8));
  }
}
class Wrong extends Kernel {
  Wrong(KernelParameters p) {
    super(p);
    DFEVar x = io.input(\"x\", dfeUInt(8));
    x <== x;
  }
}
class M extends CustomManager {
  M(EngineParameters e) {
    super(e);
    addKernel(new Loose(makeKernelParameters(\"A\")));
    addKernel(new Wrong(makeKernelParameters(\"B\")));
  }
}
";

/// The constructor of the first kernel connects what is no feed, and the second one has a feed to
/// which nothing is connected.
pub const WRONG_LOOSE: &str = "class Loose extends Kernel {
  Loose(KernelParameters p) {
    super(p);
    DFEVar v = dfeUInt(8).newInstance(this);
    io.output(\"y\", v, dfeUInt(8));
  }
}
class Wrong extends Kernel {
  Wrong(KernelParameters p) {
    super(p);
    DFEVar x = io.input(\"x\", dfeUInt(8));
    x <== x;
  }
}
class M extends CustomManager {
  M(EngineParameters e) {
    super(e);
    addKernel(new Wrong(makeKernelParameters(\"A\")));
    addKernel(new Loose(makeKernelParameters(\"B\")));
  }
}
";

/// The manager uses a name that it hasn't, and the constructor of its kernel connects what is no
/// feed.
pub const WRONG_MANAGER: &str = "class Wrong extends Kernel {
  Wrong(KernelParameters p) {
    super(p);
    DFEVar x = io.input(\"x\", dfeUInt(8));
    x <== x;
  }
}
class M extends CustomManager {
  M(EngineParameters e) {
    super(e);
    addKernel(new Wrong(makeKernelParameters(\"A\")));
    KernelBlock b = c;
  }
}
";

/// Two kernels of one name, of which neither is linked.
pub const SAME_NAME: &str = "class Pass extends Kernel {
  Pass(KernelParameters p) {
    super(p);
    DFEVar x = io.input(\"x\", dfeUInt(8));
    io.output(\"y\", x, dfeUInt(8));
  }
}
class M extends CustomManager {
  M(EngineParameters e) {
    super(e);
    addKernel(new Pass(makeKernelParameters(\"A\")));
    addKernel(new Pass(makeKernelParameters(\"A\")));
  }
}
";

/// A kernel whose output is linked nowhere.
pub const UNLINKED: &str = "class Pass extends Kernel {
  Pass(KernelParameters p) {
    super(p);
    DFEVar x = io.input(\"x\", dfeUInt(8));
    io.output(\"y\", x, dfeUInt(8));
  }
}
class M extends CustomManager {
  M(EngineParameters e) {
    super(e);
    KernelBlock a = addKernel(new Pass(makeKernelParameters(\"A\")));
    a.getInput(\"x\") <== addStreamFromCPU(\"x\");
  }
}
";
