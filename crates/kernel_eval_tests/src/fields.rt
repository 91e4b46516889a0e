// Worked kernels with two fields of one name: each field is tested and set in its own turn.

/// A source of one kernel, and the line that is said of it.
pub const TWINS: [(&str, &str); 8] = [
    (
        "class K extends Kernel {
  boolean a = true;
  int a = 5;
  K(KernelParameters p) { super(p); int c = 1 / (a - 5); }
}
",
        "refused E5 102\n",
    ),
    (
        "class K extends Kernel {
  int a = 1;
  int b = a;
  boolean a = true;
  K(KernelParameters p) { super(p); }
}
",
        "refused E6 48\n",
    ),
    (
        "class K extends Kernel {
  int a = 1;
  int b = a;
  int a = 2;
  K(KernelParameters p) { super(p); }
}
",
        "refused E6 48\n",
    ),
    (
        "class K extends Kernel {
  int a = 1;
  int a;
  K(KernelParameters p) { super(p); int c = a; }
}
",
        "refused E6 91\n",
    ),
    (
        "class K extends Kernel {
  int f() { a = 5; return 1; }
  int a = f();
  int a;
  K(KernelParameters p) { super(p); int c = 1 / (a - 5); }
}
",
        "refused E5 124\n",
    ),
    (
        "class K extends Kernel {
  int a = true;
  boolean a = true;
  K(KernelParameters p) { super(p); }
}
",
        "refused E2 27\n",
    ),
    (
        "class K extends Kernel {
  boolean a = true;
  int a = true;
  K(KernelParameters p) { super(p); }
}
",
        "refused E2 47\n",
    ),
    (
        "class K extends Kernel {
  int a = 1 / 0;
  int a = 2;
  K(KernelParameters p) { super(p); }
}
",
        "refused E5 35\n",
    ),
];
