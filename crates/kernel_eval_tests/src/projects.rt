// Sources with a manager.

/// Two words of a stream, 95 ticks apart, added up in a second kernel.
pub const SPLIT_ADD: &str = "class Split extends Kernel {
  Split(KernelParameters p) {
    super(p);
    DFEVar x = io.input(\"x\", dfeUInt(8));
    io.output(\"p\", stream.offset(x, 5), dfeUInt(8));
    io.output(\"q\", stream.offset(x, 100), dfeUInt(8));
  }
}
class Add2 extends Kernel {
  Add2(KernelParameters p) {
    super(p);
    DFEVar p1 = io.input(\"p\", dfeUInt(8));
    DFEVar q1 = io.input(\"q\", dfeUInt(8));
    io.output(\"y\", p1 + q1, dfeUInt(8));
  }
}
class M extends CustomManager {
  M(EngineParameters e) {
    super(e);
    KernelBlock a = addKernel(new Split(makeKernelParameters(\"A\")));
    KernelBlock b = addKernel(new Add2(makeKernelParameters(\"B\")));
    a.getInput(\"x\") <== addStreamFromCPU(\"x\");
    b.getInput(\"p\") <== a.getOutput(\"p\");
    b.getInput(\"q\") <== a.getOutput(\"q\");
    addStreamToCPU(\"y\") <== b.getOutput(\"y\");
  }
}
";

/// Two kernels that each wait for the other.
pub const RING: &str = "class Pass extends Kernel {
  Pass(KernelParameters p) {
    super(p);
    DFEVar x = io.input(\"x\", dfeUInt(8));
    io.output(\"y\", x, dfeUInt(8));
  }
}
class M extends CustomManager {
  M(EngineParameters e) {
    super(e);
    KernelBlock a = addKernel(new Pass(makeKernelParameters(\"A\")));
    KernelBlock b = addKernel(new Pass(makeKernelParameters(\"B\")));
    a.getInput(\"x\") <== b.getOutput(\"y\");
    b.getInput(\"x\") <== a.getOutput(\"y\");
  }
}
";

/// A stream that passes through two kernels.
pub const PASS_TWICE: &str = "class Pass extends Kernel {
  Pass(KernelParameters p) {
    super(p);
    DFEVar x = io.input(\"x\", dfeUInt(8));
    io.output(\"y\", x, dfeUInt(8));
  }
}
class M extends CustomManager {
  M(EngineParameters e) {
    super(e);
    KernelBlock a = addKernel(new Pass(makeKernelParameters(\"A\")));
    KernelBlock b = addKernel(new Pass(makeKernelParameters(\"B\")));
    a.getInput(\"x\") <== addStreamFromCPU(\"x\");
    b.getInput(\"x\") <== a.getOutput(\"y\");
    addStreamToCPU(\"y\") <== b.getOutput(\"y\");
  }
}
";

/// Two words of a stream, 70,000 ticks apart, added up in a second kernel.
pub const SPLIT_ADD_FAR: &str = "class Split extends Kernel {
  Split(KernelParameters p) {
    super(p);
    DFEVar x = io.input(\"x\", dfeUInt(8));
    io.output(\"p\", x, dfeUInt(8));
    io.output(\"q\", stream.offset(x, 70000), dfeUInt(8));
  }
}
class Add2 extends Kernel {
  Add2(KernelParameters p) {
    super(p);
    DFEVar p1 = io.input(\"p\", dfeUInt(8));
    DFEVar q1 = io.input(\"q\", dfeUInt(8));
    io.output(\"y\", p1 + q1, dfeUInt(8));
  }
}
class M extends CustomManager {
  M(EngineParameters e) {
    super(e);
    KernelBlock a = addKernel(new Split(makeKernelParameters(\"A\")));
    KernelBlock b = addKernel(new Add2(makeKernelParameters(\"B\")));
    a.getInput(\"x\") <== addStreamFromCPU(\"x\");
    b.getInput(\"p\") <== a.getOutput(\"p\");
    b.getInput(\"q\") <== a.getOutput(\"q\");
    addStreamToCPU(\"y\") <== b.getOutput(\"y\");
  }
}
";

/// A kernel whose constructor has a parameter of each kind, added twice.
pub const TAKE: &str = "class Take extends Kernel {
  Take(KernelParameters p, int n, boolean doubled, DFEType t) {
    super(p);
    DFEVar x = io.input(\"x\", t);
    if (doubled) {
      for (int i = 0; i < n; i++) {
        x = x + x;
      }
    }
    io.output(\"y\", x, t);
  }
}
class M extends CustomManager {
  M(EngineParameters e) {
    super(e);
    KernelBlock a = addKernel(new Take(makeKernelParameters(\"A\"), 2, true, dfeInt(8)));
    KernelBlock b = addKernel(new Take(makeKernelParameters(\"B\"), 2, false, dfeBool()));
    a.getInput(\"x\") <== addStreamFromCPU(\"x\");
    b.getInput(\"x\") <== addStreamFromCPU(\"flag\");
    addStreamToCPU(\"y\") <== a.getOutput(\"y\");
    addStreamToCPU(\"z\") <== b.getOutput(\"y\");
  }
}
";
