// Sources of one kernel, beside those of `kernel_eval_tests`.

/// The quotients of two streams.
pub const QUOT: &str = "class Quot extends Kernel {
  Quot(KernelParameters p) {
    super(p);
    DFEVar a = io.input(\"a\", dfeInt(8));
    DFEVar b = io.input(\"b\", dfeInt(8));
    io.output(\"q\", a / b, dfeInt(8));
  }
}
";
