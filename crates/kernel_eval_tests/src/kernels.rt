// Sources of one kernel.

/// A stream added to itself.
pub const DOUBLE: &str = "class Double extends Kernel {
  Double(KernelParameters p) {
    super(p);
    DFEVar x = io.input(\"x\", dfeUInt(8));
    io.output(\"y\", x + x, dfeUInt(8));
  }
}
";

/// A stream less itself.
pub const ZERO: &str = "class Zero extends Kernel {
  Zero(KernelParameters p) {
    super(p);
    DFEVar x = io.input(\"x\", dfeUInt(8));
    io.output(\"y\", x - x, dfeUInt(8));
  }
}
";

/// Three neighbours of a stream, added up.
pub const SUM3: &str = "class Sum3 extends Kernel {
  Sum3(KernelParameters p) {
    super(p);
    DFEVar x = io.input(\"x\", dfeUInt(32));
    io.output(\"y\", stream.offset(x, -1) + x + stream.offset(x, 1), dfeUInt(32));
  }
}
";

/// A word and its square, each in 64 bits, added up.
pub const SQUARE: &str = "class Square extends Kernel {
  Square(KernelParameters p) {
    super(p);
    DFEVar x = io.input(\"x\", dfeUInt(8));
    DFEVar q = x * x;
    io.output(\"y\", x.cast(dfeUInt(64)) + q.cast(dfeUInt(64)), dfeUInt(64));
  }
}
";

/// A running sum, by a feed.
pub const ACC: &str = "class Acc extends Kernel {
  Acc(KernelParameters p) {
    super(p);
    DFEVar x = io.input(\"x\", dfeUInt(32));
    DFEVar i = control.count.simpleCounter(32);
    DFEVar old = dfeUInt(32).newInstance(this);
    DFEVar sum = x + (i === 0 ? 0 : old);
    old <== stream.offset(sum, -1);
    io.output(\"y\", sum, dfeUInt(32));
  }
}
";

/// A feed that is connected to itself.
pub const SELF: &str = "class Self extends Kernel {
  Self(KernelParameters p) {
    super(p);
    DFEVar v = dfeUInt(8).newInstance(this);
    v <== v;
    io.output(\"y\", v, dfeUInt(8));
  }
}
";

/// The word after.
pub const NEXT: &str = "class Next extends Kernel {
  Next(KernelParameters p) {
    super(p);
    DFEVar x = io.input(\"x\", dfeUInt(8));
    io.output(\"y\", stream.offset(x, 1), dfeUInt(8));
  }
}
";

/// The word after, but 0 in each fourth tick.
pub const GUARD: &str = "class Guard extends Kernel {
  Guard(KernelParameters p) {
    super(p);
    DFEVar x = io.input(\"x\", dfeUInt(8));
    DFEVar i = control.count.simpleCounter(2);
    io.output(\"y\", i === 3 ? 0 : stream.offset(x, 1), dfeUInt(8));
  }
}
";

/// Each fourth word.
pub const FOURTH: &str = "class Fourth extends Kernel {
  Fourth(KernelParameters p) {
    super(p);
    DFEVar x = io.input(\"x\", dfeUInt(8));
    DFEVar i = control.count.simpleCounter(2);
    io.output(\"y\", x, dfeUInt(8), i === 3);
  }
}
";

/// Two counters in a chain.
pub const NEST: &str = "class Nest extends Kernel {
  Nest(KernelParameters p) {
    super(p);
    CounterChain chain = control.count.makeCounterChain();
    DFEVar a = chain.addCounter(2, 1);
    DFEVar b = chain.addCounter(3, 1);
    io.output(\"outer\", a, dfeUInt(1));
    io.output(\"inner\", b, dfeUInt(2));
  }
}
";

/// A number rounded in the three modes.
pub const TIES: &str = "class Ties extends Kernel {
  Ties(KernelParameters p) {
    super(p);
    DFEType whole = dfeFix(4, 0, SignMode.TWOSCOMPLEMENT);
    DFEVar x = io.input(\"x\", dfeFix(4, 4, SignMode.TWOSCOMPLEMENT));
    optimization.pushRoundingMode(RoundingMode.TRUNCATE);
    io.output(\"a\", x.cast(whole), whole);
    optimization.popRoundingMode();
    optimization.pushRoundingMode(RoundingMode.TONEAR);
    io.output(\"b\", x.cast(whole), whole);
    optimization.popRoundingMode();
    io.output(\"c\", x.cast(whole), whole);
  }
}
";

/// A constructor without an end.
pub const ENDLESS: &str = "class Endless extends Kernel {
  Endless(KernelParameters p) {
    super(p);
    while (true) { }
  }
}
";

/// Each point of an image of 1,920 by 1,080, with those above and below it.
pub const STENCIL: &str = "class Stencil extends Kernel {
  Stencil(KernelParameters p) {
    super(p);
    DFEVar x = io.input(\"x\", dfeUInt(8));
    CounterChain chain = control.count.makeCounterChain();
    DFEVar row = chain.addCounter(1080, 1);
    DFEVar col = chain.addCounter(1920, 1);
    DFEVar up = row === 0 ? 0 : stream.offset(x, -1920);
    DFEVar down = row === 1079 ? 0 : stream.offset(x, 1920);
    io.output(\"y\", up + x + down, dfeUInt(8));
  }
}
";

/// A word and the word 40,000 before it, added up.
pub const LONG: &str = "class Long extends Kernel {
  Long(KernelParameters p) {
    super(p);
    DFEVar x = io.input(\"x\", dfeUInt(8));
    io.output(\"y\", x + stream.offset(x, -40000), dfeUInt(8));
  }
}
";

/// The words that a 0 follows.
pub const PEEK: &str = "class Peek extends Kernel {
  Peek(KernelParameters p) {
    super(p);
    DFEVar x = io.input(\"x\", dfeUInt(8));
    io.output(\"y\", x, dfeUInt(8), stream.offset(x, 1) === 0);
  }
}
";

/// The quotient of two streams.
pub const QUOT: &str = "class Quot extends Kernel {
  Quot(KernelParameters p) {
    super(p);
    DFEVar a = io.input(\"a\", dfeInt(8));
    DFEVar b = io.input(\"b\", dfeInt(8));
    io.output(\"q\", a / b, dfeInt(8));
  }
}
";
