// Texts that are simulated: what is said, and the words that leave.
use crate::commands::{COMPILE, SIMULATE, expect_ends, expect_stalled, run};
use crate::files::{expect_file, put};
use crate::tests::IMMEDIATE;
use maxjc_core::Status;
use mx_base::{MemFiles, MemSay};
use std::alloc::Global;
use std::process::Abort;
use std::test::Fail;

pub(crate) const HEAD: &[u8] = b"module top$project (
input wire [0:0] clk, input wire [0:0] reset,
input wire [0:0] hold$Double, input wire [47:0] ticks$Double,
input wire [7:0] in$x$data, input wire [0:0] in$x$valid, output wire [0:0] in$x$ready,
output wire [7:0] out$y$data, output wire [0:0] out$y$valid, input wire [0:0] out$y$ready,
output wire [0:0] done);
wire [0:0] w0;
";

const BODY: &[u8] = b"assign w0 = ~hold$Double;
assign out$y$data = in$x$data + in$x$data;
assign out$y$valid = in$x$valid & w0;
assign in$x$ready = out$y$ready & w0;
assign done = 1'h0;
endmodule
";

const LOOP: &[u8] = b"wire [0:0] w1;
assign w0 = ~w1;
assign w1 = ~w0;
assign out$y$data = in$x$data + in$x$data;
assign out$y$valid = in$x$valid & w0;
assign in$x$ready = out$y$ready & w0;
assign done = 1'h0;
endmodule
";

const DONE_AT_ONCE: &[u8] = b"assign w0 = ~hold$Double;
assign out$y$data = in$x$data;
assign out$y$valid = in$x$valid & w0;
assign in$x$ready = out$y$ready & w0;
assign done = 1'h1;
endmodule
";

// A simulation: the text's head and body, the run file, the words of x, and what they lead to.
#[derive(Drop)]
pub(crate) struct Case<'a> {
    pub head: &'a [u8],
    pub body: &'a [u8],
    pub run: &'a [u8],
    pub x: &'a [u8],
    pub status: Status,
    pub said: &'a [u8],
    pub y: &'a [u8],
}

pub(crate) const TWO_EDGES: &[u8] =
    b"{\"ticks\":{\"Double\":2},\"inputs\":{\"x\":\"x.txt\"},\"outputs\":{\"y\":\"y.txt\"},\"edges\":2}";

const STALLED: &[u8] =
    b"{\"ticks\":{\"Double\":2},\"inputs\":{\"x\":\"x.txt\"},\"outputs\":{\"y\":\"y.txt\"},\"edges\":1000,\"pattern\":1}";

const NO_EDGES: &[u8] =
    b"{\"ticks\":{\"Double\":2},\"inputs\":{\"x\":\"x.txt\"},\"outputs\":{\"y\":\"y.txt\"}}";

const OTHER_KERNEL: &[u8] =
    b"{\"ticks\":{\"Twice\":2},\"inputs\":{\"x\":\"x.txt\"},\"outputs\":{\"y\":\"y.txt\"},\"edges\":2}";

// Puts what a case has, and an output file of an earlier run.
fn put_case(alloc: Global, files: &mut MemFiles, case: &Case<'_>) -> Result<(), Fail> {
    let mut bytes = case.head.to_vec(alloc)?;
    bytes.extend_from_slice(case.body)?;
    put(alloc, files, b"text", &bytes)?;
    put(alloc, files, b"run", case.run)?;
    put(alloc, files, b"x.txt", case.x)?;
    put(alloc, files, b"y.txt", b"as before")
}

// Files in memory that hold these.
fn held(alloc: Global, case: &Case<'_>) -> Result<MemFiles, Fail> {
    let mut files = MemFiles::new(alloc, Vec::new(alloc))?;
    put_case(alloc, &mut files, case)?;
    Ok(files)
}

pub(crate) fn expect(rt: &impl Abort, alloc: Global, case: &Case<'_>) -> Result<(), Fail> {
    let mut files = held(alloc, case)?;
    expect_stalled(rt, alloc, &mut files, case.status, case.said)?;
    expect_file(rt, alloc, &mut files, b"y.txt", case.y)
}

#[test]
fn words_leave_a_text(rt: HostRuntime) -> Result<(), Fail> {
    let cases = [
        Case {
            head: HEAD,
            body: BODY,
            run: TWO_EDGES,
            x: b"80\nff\n",
            status: Status::EdgeLimit,
            said: b"not done after 2 edges\n",
            y: b"00\nfe\n",
        },
        Case {
            head: HEAD,
            body: BODY,
            run: STALLED,
            x: b"01\n02\n",
            status: Status::EdgeLimit,
            said: b"not done after 1000 edges\n",
            y: b"",
        },
        Case {
            head: HEAD,
            body: DONE_AT_ONCE,
            run: TWO_EDGES,
            x: b"01\n",
            status: Status::Done,
            said: b"done after 0 edges\n",
            y: b"",
        },
        Case {
            head: HEAD,
            body: BODY,
            run: TWO_EDGES,
            x: b"7F",
            status: Status::EdgeLimit,
            said: b"not done after 2 edges\n",
            y: b"fe\n",
        },
    ];
    for case in &cases {
        expect(&rt, rt.alloc(), case)?;
    }
    Ok(())
}

// A case that is refused with this line, and leaves the output as it was.
fn refused<'a>(body: &'a [u8], run: &'a [u8], said: &'a [u8]) -> Case<'a> {
    Case {
        head: HEAD,
        body,
        run,
        x: b"80\nff\n",
        status: Status::Refused,
        said,
        y: b"as before",
    }
}

#[test]
fn texts_and_run_files_are_refused(rt: HostRuntime) -> Result<(), Fail> {
    let cases = [
        refused(b"#", TWO_EDGES, b"refused V1 347\n"),
        refused(b"reg [0:0] r", TWO_EDGES, b"refused V2 358\n"),
        refused(b"assign w0 = ;", TWO_EDGES, b"refused V2 359\n"),
        refused(LOOP, TWO_EDGES, b"refused V3 4 w0 w1\n"),
        refused(
            b"assign w0 = w9; endmodule",
            TWO_EDGES,
            b"refused V3 1 w9\n",
        ),
        refused(
            b"assign w0 = in$x$data; endmodule",
            TWO_EDGES,
            b"refused V3 5 in$x$ready\n",
        ),
        refused(BODY, b"[", b"refused U1\n"),
        refused(BODY, NO_EDGES, b"refused U2 edges\n"),
        refused(BODY, OTHER_KERNEL, b"refused U2 ticks\n"),
    ];
    for case in &cases {
        expect(&rt, rt.alloc(), case)?;
    }
    let few = Case {
        head: b"module m (input wire [0:0] clk, input wire [0:0] reset); endmodule",
        body: b"",
        run: TWO_EDGES,
        x: b"",
        status: Status::Refused,
        said: b"refused V4 done\n",
        y: b"as before",
    };
    expect(&rt, rt.alloc(), &few)
}

#[test]
fn lines_that_are_no_words_are_refused(rt: HostRuntime) -> Result<(), Fail> {
    for (x, said, y) in [
        (
            b"1g\n".as_slice(),
            b"refused U3 x.txt 1\n".as_slice(),
            b"".as_slice(),
        ),
        (b"100\n", b"refused U4 x.txt 1\n", b""),
        (b"80\n\n", b"refused U3 x.txt 2\n", b""),
    ] {
        let case = Case {
            head: HEAD,
            body: BODY,
            run: TWO_EDGES,
            x,
            status: Status::Refused,
            said,
            y,
        };
        expect(&rt, rt.alloc(), &case)?;
    }
    Ok(())
}

const SOURCE: &[u8] = b"class Double extends Kernel {
  Double(KernelParameters p) {
    super(p);
    DFEVar x = io.input(\"x\", dfeUInt(8));
    io.output(\"y\", x + x, dfeUInt(8));
  }
}
";

const SQUARE: &[u8] = b"class Double extends Kernel {
  Double(KernelParameters p) {
    super(p);
    DFEVar x = io.input(\"x\", dfeUInt(128));
    io.output(\"y\", x * x, dfeUInt(128)); // modulo 2^128
  }
}
";

const LOGIC: &[u8] = b"import a.b.*;
public class Double extends Kernel {
  Double(final KernelParameters p) {
    super(p);
    final DFEVar x = io.input(\"x\", dfeUInt(8));
    DFEVar one = x / x; /* where x isn't 0 */
    DFEVar three = one + one + one;
    DFEVar half = three * x / (one + one);
    io.output(\"y\", (half & ~x | one) ^ x, dfeUInt(8));
  }
}
";

const ONE_TICK: &[u8] =
    b"{\"ticks\":{\"Double\":1},\"inputs\":{\"x\":\"x.txt\"},\"outputs\":{\"y\":\"y.txt\"},\"edges\":1000,\"pattern\":1}";

const THREE_TICKS: &[u8] =
    b"{\"ticks\":{\"Double\":3},\"inputs\":{\"x\":\"x.txt\"},\"outputs\":{\"y\":\"y.txt\"},\"edges\":1000,\"pattern\":1}";

// Puts a source, a table without latencies, a run file and the words of x.
fn put_source(
    alloc: Global,
    files: &mut MemFiles,
    source: &[u8],
    run_file: &[u8],
    x: &[u8],
) -> Result<(), Fail> {
    put(alloc, files, b"source", source)?;
    put(alloc, files, b"table", IMMEDIATE)?;
    put(alloc, files, b"run", run_file)?;
    put(alloc, files, b"x.txt", x)
}

// The text that these files hold is simulated to its end, in some number of edges.
fn expect_done(rt: &impl Abort, alloc: Global, files: &mut MemFiles) -> Result<(), Fail> {
    let mut say = MemSay::new(alloc, Vec::new(alloc))?;
    let ended = run(alloc, &SIMULATE, files, &mut say)?;
    assert!(rt; ended == Status::Done);
    assert!(rt; say.bytes().starts_with(b"done after "));
    Ok(())
}

// The words that a source gives, compiled and simulated under the program's pattern.
fn expect_words(
    rt: &impl Abort,
    alloc: Global,
    source: &[u8],
    run_file: &[u8],
    x: &[u8],
    y: &[u8],
) -> Result<(), Fail> {
    let mut files = MemFiles::new(alloc, Vec::new(alloc))?;
    put_source(alloc, &mut files, source, run_file, x)?;
    let summary = b"kernel Double fifo 0\n";
    expect_ends(rt, alloc, &COMPILE, &mut files, Status::Done, summary)?;
    expect_done(rt, alloc, &mut files)?;
    expect_file(rt, alloc, &mut files, b"y.txt", y)
}

#[test]
fn compiled_texts_are_simulated(rt: HostRuntime) -> Result<(), Fail> {
    for (source, run_file, x, y) in [
        (
            SOURCE,
            THREE_TICKS,
            b"01\n02\n03\n".as_slice(),
            b"02\n04\n06\n".as_slice(),
        ),
        (
            SQUARE,
            ONE_TICK,
            b"ffffffffffffffffffffffffffffffff\n",
            b"00000000000000000000000000000001\n",
        ),
        (LOGIC, THREE_TICKS, b"10\n7f\n80\n", b"19\n7e\nc1\n"),
    ] {
        expect_words(&rt, rt.alloc(), source, run_file, x, y)?;
    }
    Ok(())
}
