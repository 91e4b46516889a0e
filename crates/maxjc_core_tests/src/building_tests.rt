// The constructors of kernels run: each refusal once, with its place and values.
use crate::tests::expect_end;
use maxjc_core::Status;
use std::test::Fail;

// Sources, each with the line that it is refused with.
const REFUSED: [(&[u8], &[u8]); 21] = [
    (
        b"class K extends Kernel {
  K(KernelParameters p, int p) { super(p); }
}",
        b"refused E1 27\n",
    ),
    (
        b"class K extends Kernel {
  K(KernelParameters p) {
    super(p);
    return 1;
  }
}
",
        b"refused E2 69\n",
    ),
    (
        b"class K extends Kernel {
  K(KernelParameters p) {
    super(p);
    DFEVar a = constant.var(dfeBool(), 2);
  }
}
",
        b"refused E3 80 4\n",
    ),
    (
        b"class K extends Kernel {
  K(KernelParameters p) {
    super(p);
    DFEVar a = constant.var(dfeUInt(8), 1.0);
  }
}
",
        b"refused E3 80 2 cast\n",
    ),
    (
        b"class K extends Kernel {
  K(KernelParameters p) {
    super(p);
    int[] a = new int[-1];
  }
}
",
        b"refused E4 79\n",
    ),
    (
        b"class K extends Kernel {
  K(KernelParameters p) {
    super(p);
    return 1 / 0;
  }
}
",
        b"refused E5 76\n",
    ),
    (
        b"class K extends Kernel {
  K(KernelParameters p) {
    super(p);
    int a = a;
  }
}
",
        b"refused E6 77\n",
    ),
    (
        b"class K extends Kernel {
  K(KernelParameters p) {
    super(p);
    for (;;) { }
  }
}
",
        b"refused E7\n",
    ),
    (
        b"class K extends Kernel {
  void f(int n) { if (n > 1) f(n - 1); }
  K(KernelParameters p) { super(p); f(65); }
}",
        b"refused E8 54\n",
    ),
    (
        b"class K extends Kernel {
  K(KernelParameters p) {
    super(p);
    DFEVar x = io.input(\"x\", dfeUInt(8));
    DFEVar y = stream.offset(x, -1048577);
  }
}
",
        b"refused E9 122 5 -1048577\n",
    ),
    (
        b"class K extends Kernel {
  K(KernelParameters p) {
    super(p);
    String s = \"01234567890123456789012345678901234567890123456789012345678901234\";
  }
}
",
        b"refused E10 80\n",
    ),
    (
        b"import a.b.*;
public final class _K extends Kernel { _K(KernelParameters p) { super(p); } }",
        b"refused E11 14\n",
    ),
    (
        b"class K extends Kernel {
  K(KernelParameters p) {
    super(p);
    optimization.pushRoundingMode(RoundingMode.TRUNCATE);
    optimization.popRoundingMode();
    optimization.popRoundingMode();
  }
}
",
        b"refused E12 163\n",
    ),
    (
        b"class K extends Kernel {
  K(KernelParameters p) {
    super(p);
    DFEVar i = control.count.simpleCounter(2, 0);
  }
}
",
        b"refused E13 80 1 0 2\n",
    ),
    (
        b"class K extends Kernel {
  K(KernelParameters p) {
    super(p);
    DFEType t = dfeUInt(0);
  }
}
",
        b"refused E14 81\n",
    ),
    (
        b"class K extends Kernel {
  K(KernelParameters p) {
    super(p);
    int p;
  }
}
",
        b"refused E15 69\n",
    ),
    (
        b"class K extends Kernel {
  K(KernelParameters p) {
    super(p);
    DFEVar v = dfeUInt(8).newInstance(this);
  }
}
",
        b"refused G1 K 0\n",
    ),
    (
        b"class K extends Kernel {
  K(KernelParameters p) {
    super(p);
    DFEVar v = dfeUInt(8).newInstance(this);
    DFEVar w = dfeUInt(8).newInstance(this);
    v <== w;
    v <== v;
  }
}
",
        b"refused G2 K 0\n",
    ),
    (
        b"class K extends Kernel {
  K(KernelParameters p) {
    super(p);
    DFEVar x = io.input(\"abcd\", dfeUInt(8));
    DFEVar y = io.input(\"ab\" + \"cd\", dfeUInt(8));
  }
}
",
        b"refused G3 K abcd\n",
    ),
    (
        b"class K extends Kernel {
  K(KernelParameters p) {
    super(p);
    DFEVar x = io.input(\"x\", dfeUInt(8));
    for (int i = 0; i < 4096; i++) x = ~x;
  }
}
",
        b"refused G4 K 4097\n",
    ),
    (
        b"class K extends Kernel {
  K(KernelParameters p) {
    super(p);
    DFEVar x = io.input(\"x\", dfeUInt(8));
    CounterChain chain = control.count.makeCounterChain();
  }
}
",
        b"refused G6 K 1\n",
    ),
];

#[test]
fn constructors_are_refused(rt: HostRuntime) -> Result<(), Fail> {
    for (source, said) in REFUSED {
        expect_end(&rt, rt.alloc(), source, Status::Refused, said)?;
    }
    Ok(())
}
