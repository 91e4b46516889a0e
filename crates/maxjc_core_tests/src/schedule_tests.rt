// Latency tables, and kernels that have no schedule by them.
use crate::kernel_sources::ACC;
use crate::tests::{DOUBLE, IMMEDIATE, expect_end_with};
use maxjc_core::Status;
use std::test::Fail;

pub(crate) const ITSELF: &[u8] = b"class Self extends Kernel {
  Self(KernelParameters p) {
    super(p);
    DFEVar v = dfeUInt(8).newInstance(this);
    v <== v;
    io.output(\"y\", v, dfeUInt(8));
  }
}
";

// A manager that adds no kernel.
pub(crate) const MANAGER: &[u8] = b"class K extends Kernel { K(KernelParameters p) { super(p); } }
class M extends CustomManager { M(EngineParameters e) { super(e); } }
";

// A table by which a sum takes two ticks.
const TWO: &[u8] = b"{\"add\":[[1,2]],\"eq\":[[1,0]],\"mux\":[[1,0]]}";

// Sources and tables, each with the line that they are refused with. A fault of the source stands
// before one of the table, and that before those of the manager and of the kernel.
const REFUSED: [(&[u8], &[u8], &[u8]); 14] = [
    (DOUBLE, b"[", b"refused T1\n"),
    (DOUBLE, b"", b"refused T1\n"),
    (DOUBLE, b"[]", b"refused T2 -\n"),
    (DOUBLE, b"{\"foo\":[]}", b"refused T2 foo\n"),
    (DOUBLE, b"{\"shl\":[[1,0]]}", b"refused T2 shl\n"),
    (DOUBLE, b"{\"add\":[[1,0],[1,0]]}", b"refused T3 add\n"),
    (DOUBLE, b"{\"add\":[[1,70]]}", b"refused T3 add\n"),
    (DOUBLE, b"{}", b"refused L1 Double add 8\n"),
    (DOUBLE, b"{\"add\":[[9,0]]}", b"refused L1 Double add 8\n"),
    (b"class", b"[", b"refused S3 5\n"),
    (MANAGER, b"[", b"refused T1\n"),
    (ITSELF, b"[", b"refused T1\n"),
    (
        ITSELF,
        IMMEDIATE,
        b"refused C1 Self latency 0 back 0 nodes 0\n",
    ),
    (ACC, TWO, b"refused C2 Acc latency 2 back 1 nodes 2 6 7\n"),
];

#[test]
fn tables_and_kernels_without_schedules_are_refused(rt: HostRuntime) -> Result<(), Fail> {
    for (source, table, said) in REFUSED {
        expect_end_with(&rt, rt.alloc(), source, table, Status::Refused, said)?;
    }
    Ok(())
}
