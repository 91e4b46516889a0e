// Sources of worked kernels, and a table by which sums and products take ticks.

// A sum takes one tick and a product three; no other operation takes one.
pub(crate) const SLOW: &[u8] = b"{\"add\":[[1,1]],\"sub\":[[1,0]],\"mul\":[[1,3]],\"div\":[[1,0]],
\"neg\":[[1,0]],\"and\":[[1,0]],\"or\":[[1,0]],\"xor\":[[1,0]],\"not\":[[1,0]],\"eq\":[[1,0]],
\"ne\":[[1,0]],\"lt\":[[1,0]],\"le\":[[1,0]],\"gt\":[[1,0]],\"ge\":[[1,0]],\"mux\":[[1,0]],\"round\":[[1,0]]}";

// A stream less itself.
pub(crate) const ZERO: &[u8] = b"class Zero extends Kernel {
  Zero(KernelParameters p) {
    super(p);
    DFEVar x = io.input(\"x\", dfeUInt(8));
    io.output(\"y\", x - x, dfeUInt(8));
  }
}
";

// A word and its square, each in 64 bits, added up.
pub(crate) const SQUARE: &[u8] = b"class Square extends Kernel {
  Square(KernelParameters p) {
    super(p);
    DFEVar x = io.input(\"x\", dfeUInt(8));
    DFEVar q = x * x;
    io.output(\"y\", x.cast(dfeUInt(64)) + q.cast(dfeUInt(64)), dfeUInt(64));
  }
}
";

// Three neighbours of a stream, added up.
pub(crate) const SUM3: &[u8] = b"class Sum3 extends Kernel {
  Sum3(KernelParameters p) {
    super(p);
    DFEVar x = io.input(\"x\", dfeUInt(32));
    io.output(\"y\", stream.offset(x, -1) + x + stream.offset(x, 1), dfeUInt(32));
  }
}
";

// The word after.
pub(crate) const NEXT: &[u8] = b"class Next extends Kernel {
  Next(KernelParameters p) {
    super(p);
    DFEVar x = io.input(\"x\", dfeUInt(8));
    io.output(\"y\", stream.offset(x, 1), dfeUInt(8));
  }
}
";

// A number rounded in the three modes.
pub(crate) const TIES: &[u8] = b"class Ties extends Kernel {
  Ties(KernelParameters p) {
    super(p);
    DFEType whole = dfeFix(4, 0, SignMode.TWOSCOMPLEMENT);
    DFEVar x = io.input(\"x\", dfeFix(4, 4, SignMode.TWOSCOMPLEMENT));
    optimization.pushRoundingMode(RoundingMode.TRUNCATE);
    io.output(\"a\", x.cast(whole), whole);
    optimization.popRoundingMode();
    optimization.pushRoundingMode(RoundingMode.TONEAR);
    io.output(\"b\", x.cast(whole), whole);
    optimization.popRoundingMode();
    io.output(\"c\", x.cast(whole), whole);
  }
}
";

// The square of a word of 128 bits, modulo 2^128.
pub(crate) const WIDE: &[u8] = b"class Wide extends Kernel {
  Wide(KernelParameters p) {
    super(p);
    DFEVar x = io.input(\"x\", dfeUInt(128));
    io.output(\"y\", x * x, dfeUInt(128));
  }
}
";

// A quotient of numbers with a sign.
pub(crate) const QUOT: &[u8] = b"class Quot extends Kernel {
  Quot(KernelParameters p) {
    super(p);
    DFEVar a = io.input(\"a\", dfeInt(8));
    DFEVar b = io.input(\"b\", dfeInt(8));
    io.output(\"q\", a / b, dfeInt(8));
  }
}
";

// A word and the one of 40,000 ticks ago, added up.
pub(crate) const LONG: &[u8] = b"class Long extends Kernel {
  Long(KernelParameters p) {
    super(p);
    DFEVar x = io.input(\"x\", dfeUInt(8));
    io.output(\"y\", x + stream.offset(x, -40000), dfeUInt(8));
  }
}
";

// Three words of 128 bits, each added to the one of 2^20 ticks ago.
pub(crate) const FAR: &[u8] = b"class Far extends Kernel {
  Far(KernelParameters p) {
    super(p);
    DFEVar a = io.input(\"a\", dfeUInt(128));
    DFEVar b = io.input(\"b\", dfeUInt(128));
    DFEVar c = io.input(\"c\", dfeUInt(128));
    io.output(\"x\", a + stream.offset(a, -1048576), dfeUInt(128));
    io.output(\"y\", b + stream.offset(b, -1048576), dfeUInt(128));
    io.output(\"z\", c + stream.offset(c, -1048576), dfeUInt(128));
  }
}
";

// A kernel without inputs.
pub(crate) const FIVE: &[u8] = b"class Five extends Kernel {
  Five(KernelParameters p) {
    super(p);
    io.output(\"y\", constant.var(dfeUInt(8), 5), dfeUInt(8));
  }
}
";

// A kernel without outputs, whose input is read by nothing.
pub(crate) const SINK: &[u8] = b"class Sink extends Kernel {
  Sink(KernelParameters p) {
    super(p);
    DFEVar x = io.input(\"x\", dfeUInt(8));
  }
}
";

// The sum of all words so far.
pub(crate) const ACC: &[u8] = b"class Acc extends Kernel {
  Acc(KernelParameters p) {
    super(p);
    DFEVar x = io.input(\"x\", dfeUInt(32));
    DFEVar i = control.count.simpleCounter(32);
    DFEVar old = dfeUInt(32).newInstance(this);
    DFEVar sum = x + (i === 0 ? 0 : old);
    old <== stream.offset(sum, -1);
    io.output(\"y\", sum, dfeUInt(32));
  }
}
";

// The word after, and 0 in each fourth tick.
pub(crate) const GUARD: &[u8] = b"class Guard extends Kernel {
  Guard(KernelParameters p) {
    super(p);
    DFEVar x = io.input(\"x\", dfeUInt(8));
    DFEVar i = control.count.simpleCounter(2);
    io.output(\"y\", i === 3 ? 0 : stream.offset(x, 1), dfeUInt(8));
  }
}
";

// Each fourth word.
pub(crate) const FOURTH: &[u8] = b"class Fourth extends Kernel {
  Fourth(KernelParameters p) {
    super(p);
    DFEVar x = io.input(\"x\", dfeUInt(8));
    DFEVar i = control.count.simpleCounter(2);
    io.output(\"y\", x, dfeUInt(8), i === 3);
  }
}
";

// A counter that steps where the other one wraps.
pub(crate) const NEST: &[u8] = b"class Nest extends Kernel {
  Nest(KernelParameters p) {
    super(p);
    CounterChain chain = control.count.makeCounterChain();
    DFEVar a = chain.addCounter(2, 1);
    DFEVar b = chain.addCounter(3, 1);
    io.output(\"outer\", a, dfeUInt(1));
    io.output(\"inner\", b, dfeUInt(2));
  }
}
";

// Of each pixel the sum with those above and below it.
pub(crate) const STENCIL: &[u8] = b"class Stencil extends Kernel {
  Stencil(KernelParameters p) {
    super(p);
    DFEVar x = io.input(\"x\", dfeUInt(8));
    CounterChain chain = control.count.makeCounterChain();
    DFEVar row = chain.addCounter(1080, 1);
    DFEVar col = chain.addCounter(1920, 1);
    DFEVar up = row === 0 ? 0 : stream.offset(x, -1920);
    DFEVar down = row === 1079 ? 0 : stream.offset(x, 1920);
    io.output(\"y\", up + x + down, dfeUInt(8));
  }
}
";

// The word of the last tick in which the counter was 2.
pub(crate) const KEPT: &[u8] = b"class Kept extends Kernel {
  Kept(KernelParameters p) {
    super(p);
    DFEVar x = io.input(\"x\", dfeUInt(8));
    io.output(\"y\", Reductions.streamHold(x, control.count.simpleCounter(2) === 2), dfeUInt(8));
  }
}
";

// A word and a scalar, added up.
pub(crate) const SHIFTED: &[u8] = b"class Shifted extends Kernel {
  Shifted(KernelParameters p) {
    super(p);
    DFEVar x = io.input(\"x\", dfeUInt(8));
    DFEVar a = io.scalarInput(\"a\", dfeUInt(8));
    io.output(\"y\", x + a, dfeUInt(8));
  }
}
";

// A stream that is read and written in every second tick.
pub(crate) const SECOND: &[u8] = b"class Second extends Kernel {
  Second(KernelParameters p) {
    super(p);
    DFEVar odd = control.count.simpleCounter(1) === 1;
    DFEVar x = io.input(\"x\", dfeUInt(8), odd);
    io.output(\"y\", x, dfeUInt(8), odd);
  }
}
";

// The words before a word that is 0.
pub(crate) const PEEK: &[u8] = b"class Peek extends Kernel {
  Peek(KernelParameters p) {
    super(p);
    DFEVar x = io.input(\"x\", dfeUInt(8));
    io.output(\"y\", x, dfeUInt(8), stream.offset(x, 1) === 0);
  }
}
";
