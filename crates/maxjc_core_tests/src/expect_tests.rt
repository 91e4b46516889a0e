// What `expect` writes and says of runs, and what it refuses.
use crate::commands::{CHECK, EXPECT, expect_ends, expect_unsaid, run};
use crate::files::{expect_file, put, put_all};
use crate::kernel_sources::{GUARD, NEXT, PEEK, QUOT, SHIFTED};
use crate::kernel_tests::compiled;
use crate::manager_tests::{CHAIN, split_and_add};
use crate::tests::{DOUBLE, IMMEDIATE, text};
use maxjc_core::Status;
use mx_base::{MemFiles, MemSay, read_whole};
use std::alloc::Global;
use std::process::Abort;
use std::test::Fail;

// A file by its name, and what it holds.
type File<'a> = (&'a [u8], &'a [u8]);

// A run of a source: what `compile` says of the source, the run file and the input files, how
// `expect` ends and what it says, and what the output files hold then.
#[derive(Clone, Copy)]
struct Row<'a> {
    source: &'a [u8],
    compiled: &'a [u8],
    run: &'a [u8],
    inputs: &'a [File<'a>],
    status: Status,
    said: &'a [u8],
    outputs: &'a [File<'a>],
}

const DOUBLED: Row<'static> = Row {
    source: DOUBLE,
    compiled: b"kernel Double fifo 0\n",
    run: b"{\"ticks\":{\"Double\":2},\"inputs\":{\"x\":\"x.txt\"},\"outputs\":{\"y\":\"y.txt\"},\"edges\":1000}",
    inputs: &[(b"x.txt", b"80\nff\n")],
    status: Status::Done,
    said: b"guarded\nbalanced\n",
    outputs: &[(b"y.txt", b"00\nfe\n")],
};

// The report that `compile` writes of the source of a row.
fn report_of(rt: &impl Abort, alloc: Global, row: &Row<'_>) -> Result<Vec<u8>, Fail> {
    let mut files = compiled(rt, alloc, row.source, IMMEDIATE, row.compiled)?;
    Ok(read_whole(alloc, &mut files, &text(alloc, b"report")?, 1_000_000)?)
}

// Puts what a row has, this report, output files of an earlier run and one more file.
fn put_row(alloc: Global, files: &mut MemFiles, row: &Row<'_>, report: &[u8]) -> Result<(), Fail> {
    put(alloc, files, b"source", row.source)?;
    put(alloc, files, b"table", IMMEDIATE)?;
    put(alloc, files, b"report", report)?;
    put(alloc, files, b"run", row.run)?;
    put(alloc, files, b"other", b"as before")?;
    put_all(alloc, files, row.inputs)?;
    for (name, _) in row.outputs {
        put(alloc, files, name, b"as before")?;
    }
    Ok(())
}

// Files in memory that hold these, and fail at these calls.
fn held(alloc: Global, row: &Row<'_>, report: &[u8], fails: &[u64]) -> Result<MemFiles, Fail> {
    let mut files = MemFiles::new(alloc, fails.to_vec(alloc)?)?;
    put_row(alloc, &mut files, row, report)?;
    Ok(files)
}

// What the files of a row hold after `expect`.
fn expect_left(
    rt: &impl Abort,
    alloc: Global,
    files: &mut MemFiles,
    row: &Row<'_>,
    report: &[u8],
) -> Result<(), Fail> {
    for (name, bytes) in row.outputs {
        expect_file(rt, alloc, files, name, bytes)?;
    }
    for (name, bytes) in row.inputs {
        expect_file(rt, alloc, files, name, bytes)?;
    }
    expect_file(rt, alloc, files, b"source", row.source)?;
    expect_file(rt, alloc, files, b"table", IMMEDIATE)?;
    expect_file(rt, alloc, files, b"report", report)?;
    expect_file(rt, alloc, files, b"run", row.run)?;
    expect_file(rt, alloc, files, b"other", b"as before")
}

// How `expect` ends with a row and this report, what is said, and what the files hold then.
fn expect_with(rt: &impl Abort, alloc: Global, row: &Row<'_>, report: &[u8]) -> Result<(), Fail> {
    let mut files = held(alloc, row, report, &[])?;
    expect_ends(rt, alloc, &EXPECT, &mut files, row.status, row.said)?;
    expect_left(rt, alloc, &mut files, row, report)
}

// The same with the report that `compile` writes.
fn expect_row(rt: &impl Abort, alloc: Global, row: &Row<'_>) -> Result<(), Fail> {
    let report = report_of(rt, alloc, row)?;
    expect_with(rt, alloc, row, &report)
}

const ROWS: [Row<'static>; 10] = [
    DOUBLED,
    // the last word looks past the end of the run
    Row {
        source: NEXT,
        compiled: b"kernel Next fifo 0\n",
        run: b"{\"ticks\":{\"Next\":4},\"inputs\":{\"x\":\"x.txt\"},\"outputs\":{\"y\":\"y.txt\"},\"edges\":1000000}",
        inputs: &[(b"x.txt", b"01\n02\n03\n04\n")],
        status: Status::Done,
        said: b"guarded\nbalanced\n",
        outputs: &[(b"y.txt", b"02\n03\n04\nxx\n")],
    },
    // there it is not chosen
    Row {
        source: GUARD,
        compiled: b"kernel Guard fifo 0\n",
        run: b"{\"ticks\":{\"Guard\":4},\"inputs\":{\"x\":\"x.txt\"},\"outputs\":{\"y\":\"y.txt\"},\"edges\":1000000}",
        inputs: &[(b"x.txt", b"01\n02\n03\n04\n")],
        status: Status::Done,
        said: b"guarded\nbalanced\n",
        outputs: &[(b"y.txt", b"02\n03\n04\n00\n")],
    },
    // the second kernel reads a word that the first one doesn't give
    Row {
        source: CHAIN,
        compiled: b"kernel A fifo 0\nkernel B fifo 0\nlink 0 depth 2\n",
        run: b"{\"ticks\":{\"A\":4,\"B\":5},\"inputs\":{\"x\":\"x.txt\"},\"outputs\":{\"y\":\"y.txt\"},\"edges\":100}",
        inputs: &[(b"x.txt", b"01\n02\n03\n04\n")],
        status: Status::Done,
        said: b"guarded\nunbalanced link 0 dry 4\n",
        outputs: &[(b"y.txt", b"01\n02\n03\n04\nxx\n")],
    },
    // the first kernel gives words that the second one doesn't read: before its tick 6 it has given
    // 6, of which 4 were read, and 2 have room
    Row {
        source: CHAIN,
        compiled: b"kernel A fifo 0\nkernel B fifo 0\nlink 0 depth 2\n",
        run: b"{\"ticks\":{\"A\":7,\"B\":4},\"inputs\":{\"x\":\"x.txt\"},\"outputs\":{\"y\":\"y.txt\"},\"edges\":100}",
        inputs: &[(b"x.txt", b"01\n02\n03\n04\n05\n06\n07\n")],
        status: Status::Done,
        said: b"guarded\nunbalanced link 0 full 6\n",
        outputs: &[(b"y.txt", b"01\n02\n03\n04\n")],
    },
    // a control is undefined, and counts as 0
    Row {
        source: PEEK,
        compiled: b"kernel Peek fifo 8\n",
        run: b"{\"ticks\":{\"Peek\":4},\"inputs\":{\"x\":\"x.txt\"},\"outputs\":{\"y\":\"y.txt\"},\"edges\":1000000}",
        inputs: &[(b"x.txt", b"01\n02\n03\n04\n")],
        status: Status::Done,
        said: b"unguarded kernel Peek node 4 tick 3\nbalanced\n",
        outputs: &[(b"y.txt", b"")],
    },
    // nothing is the quotient by 0
    Row {
        source: QUOT,
        compiled: b"kernel Quot fifo 0\n",
        run: b"{\"ticks\":{\"Quot\":3},\"inputs\":{\"a\":\"a.txt\",\"b\":\"b.txt\"},\"outputs\":{\"q\":\"q.txt\"},\"edges\":1000000}",
        inputs: &[(b"a.txt", b"f9\n80\n05\n"), (b"b.txt", b"02\nff\n00\n")],
        status: Status::Done,
        said: b"guarded\nbalanced\n",
        outputs: &[(b"q.txt", b"fd\n80\nxx\n")],
    },
    // a word and a scalar
    Row {
        source: SHIFTED,
        compiled: b"kernel Shifted fifo 0\n",
        run: b"{\"ticks\":{\"Shifted\":3},\"scalars\":{\"Shifted.a\":\"f0\"},\"inputs\":{\"x\":\"x.txt\"},\"outputs\":{\"y\":\"y.txt\"},\"edges\":1000000}",
        inputs: &[(b"x.txt", b"01\n02\n10\n")],
        status: Status::Done,
        said: b"guarded\nbalanced\n",
        outputs: &[(b"y.txt", b"f1\nf2\n00\n")],
    },
    // a line behind those that the run reads counts for nothing
    Row {
        inputs: &[(b"x.txt", b"80\nff\n1g\n100\n")],
        ..DOUBLED
    },
    // a word past the end of its file is undefined
    Row {
        inputs: &[(b"x.txt", b"80\n")],
        outputs: &[(b"y.txt", b"00\nxx\n")],
        ..DOUBLED
    },
];

#[test]
fn words_of_the_equations_are_written(rt: HostRuntime) -> Result<(), Fail> {
    for row in &ROWS {
        expect_row(&rt, rt.alloc(), row)?;
    }
    Ok(())
}

// Two kernels, each of which adds a scalar of its own.
const TWO_SCALARS: &[u8] = b"class Plus extends Kernel {
  Plus(KernelParameters p) {
    super(p);
    DFEVar x = io.input(\"x\", dfeUInt(8));
    DFEVar a = io.scalarInput(\"a\", dfeUInt(8));
    io.output(\"y\", x + a, dfeUInt(8));
  }
}
class M extends CustomManager {
  M(EngineParameters e) {
    super(e);
    KernelBlock a = addKernel(new Plus(makeKernelParameters(\"A\")));
    KernelBlock b = addKernel(new Plus(makeKernelParameters(\"B\")));
    a.getInput(\"x\") <== addStreamFromCPU(\"x\");
    addStreamToCPU(\"p\") <== a.getOutput(\"y\");
    b.getInput(\"x\") <== addStreamFromCPU(\"z\");
    addStreamToCPU(\"q\") <== b.getOutput(\"y\");
  }
}
";

#[test]
fn each_kernel_has_its_own_ticks_and_scalars(rt: HostRuntime) -> Result<(), Fail> {
    let row = Row {
        source: TWO_SCALARS,
        compiled: b"kernel A fifo 0\nkernel B fifo 0\n",
        run: b"{\"ticks\":{\"A\":1,\"B\":2},\"scalars\":{\"A.a\":\"10\",\"B.a\":\"02\"}\
            ,\"inputs\":{\"x\":\"x.txt\",\"z\":\"z.txt\"},\"outputs\":{\"p\":\"p.txt\",\
            \"q\":\"q.txt\"},\"edges\":100}",
        inputs: &[(b"x.txt", b"01\n1g\n"), (b"z.txt", b"03\n04\n1g\n")],
        status: Status::Done,
        said: b"guarded\nbalanced\n",
        outputs: &[(b"p.txt", b"11\n"), (b"q.txt", b"05\n06\n")],
    };
    expect_row(&rt, rt.alloc(), &row)
}

const MANY_TICKS: &[u8] =
    b"{\"ticks\":{\"Double\":1000001},\"inputs\":{\"x\":\"x.txt\"},\"outputs\":{\"y\":\"y.txt\"},\"edges\":1000}";

const TOO_MANY_TICKS: &[u8] =
    b"{\"ticks\":{\"Double\":6000000},\"inputs\":{\"x\":\"x.txt\"},\"outputs\":{\"y\":\"y.txt\"},\"edges\":1000}";

const NO_TICKS: &[u8] =
    b"{\"ticks\":{\"Double\":0},\"inputs\":{\"x\":\"x.txt\"},\"outputs\":{\"y\":\"y.txt\"},\"edges\":1000}";

// Whether each line is that of an undefined word of 8 bits.
fn are_undefined(bytes: &[u8]) -> bool {
    for place in 0..bytes.len() {
        let byte = if place % 3 == 2 { b'\n' } else { b'x' };
        if bytes[place] != byte {
            return false;
        }
    }
    bytes.len() % 3 == 0
}

// The output file has as many lines of undefined words of 8 bits.
fn expect_undefined(
    rt: &impl Abort,
    alloc: Global,
    files: &mut MemFiles,
    lines: usize,
) -> Result<(), Fail> {
    let y = read_whole(alloc, files, &text(alloc, b"y.txt")?, 10_000_000)?;
    assert!(rt; y.len() / 3 == lines);
    assert!(rt; are_undefined(&y));
    Ok(())
}

#[test]
fn a_run_of_a_million_ticks(rt: HostRuntime) -> Result<(), Fail> {
    let alloc = rt.alloc();
    let row = Row {
        run: MANY_TICKS,
        inputs: &[(b"x.txt", b"")],
        ..DOUBLED
    };
    let report = report_of(&rt, alloc, &row)?;
    let mut files = held(alloc, &row, &report, &[])?;
    expect_ends(&rt, alloc, &EXPECT, &mut files, row.status, row.said)?;
    expect_undefined(&rt, alloc, &mut files, 1_000_001)
}

// A refusal of a run of the sum of a word and itself, which leaves its output as it was.
fn refused<'a>(run: &'a [u8], inputs: &'a [File<'a>], said: &'a [u8]) -> Row<'a> {
    Row {
        run,
        inputs,
        status: Status::Refused,
        said,
        outputs: &[(b"y.txt", b"as before")],
        ..DOUBLED
    }
}

#[test]
fn runs_are_refused(rt: HostRuntime) -> Result<(), Fail> {
    let rows = [
        refused(b"[", DOUBLED.inputs, b"refused U1\n"),
        refused(
            b"{\"ticks\":{\"Double\":2},\"inputs\":{\"x\":\"x.txt\"},\"outputs\":{\"y\":\"y.txt\"}}",
            DOUBLED.inputs,
            b"refused U2 edges\n",
        ),
        refused(
            b"{\"ticks\":{\"Twice\":2},\"inputs\":{\"x\":\"x.txt\"},\"outputs\":{\"y\":\"y.txt\"},\"edges\":2}",
            DOUBLED.inputs,
            b"refused U2 ticks\n",
        ),
        // the words are counted before a line is read
        refused(
            TOO_MANY_TICKS,
            &[(b"x.txt", b"1g\n")],
            b"refused X1 18000000\n",
        ),
        refused(DOUBLED.run, &[(b"x.txt", b"1g\n")], b"refused U3 x.txt 1\n"),
        refused(
            DOUBLED.run,
            &[(b"x.txt", b"80\n1g\n")],
            b"refused U3 x.txt 2\n",
        ),
        refused(
            DOUBLED.run,
            &[(b"x.txt", b"100\n")],
            b"refused U4 x.txt 1\n",
        ),
        refused(
            DOUBLED.run,
            &[(b"x.txt", b"80\n100\n1g\n")],
            b"refused U4 x.txt 2\n",
        ),
    ];
    for row in &rows {
        expect_row(&rt, rt.alloc(), row)?;
    }
    Ok(())
}

// A fault of a report comes before one of the run file, and one of the table before both.
#[test]
fn causes_come_in_their_order(rt: HostRuntime) -> Result<(), Fail> {
    let alloc = rt.alloc();
    let row = refused(b"[", DOUBLED.inputs, b"refused Q1 1\n");
    expect_with(&rt, alloc, &row, b"no report")?;
    let row = Row {
        source: b"class",
        said: b"refused S3 5\n",
        ..row
    };
    expect_with(&rt, alloc, &row, b"no report")
}

// A report on the kernels that split a stream and add the parts: at its times one part is read
// 70,000 edges after the other one.
const DEEP: &[u8] = b"maxjc-report 1
kernel A nodes 4 edges 2 bits 0
time 0
time 0
time 0
time 70000
flow 8
flow 8
flow 0
flow 0
kernel B nodes 4 edges 3 bits 0
time 0
time 0
time 0
time 0
flow 8
flow 8
flow 8
flow 8
flow 8
flow 8
end
";

#[test]
fn links_are_measured_at_the_times_of_the_report(rt: HostRuntime) -> Result<(), Fail> {
    let alloc = rt.alloc();
    let source = split_and_add(alloc, "x", 70_000)?;
    let row = Row {
        source: &source,
        compiled: b"",
        run: b"[",
        inputs: &[],
        status: Status::Refused,
        said: b"refused P6 0 70002\n",
        outputs: &[(b"y.txt", b"as before")],
    };
    expect_with(&rt, alloc, &row, DEEP)?;

    let mut files = held(alloc, &row, DEEP, &[])?;
    let least = b"kernel A least 0\nkernel B least 0\n";
    expect_ends(&rt, alloc, &CHECK, &mut files, Status::Done, least)
}

// A file that is to be read isn't held. Of no line of an input file is one read where a kernel has
// no ticks.
#[test]
fn files_that_are_not_held(rt: HostRuntime) -> Result<(), Fail> {
    let alloc = rt.alloc();
    let row = Row {
        inputs: &[],
        status: Status::ReadFault,
        said: b"",
        outputs: &[(b"y.txt", b"as before")],
        ..DOUBLED
    };
    expect_row(&rt, alloc, &row)?;
    let row = Row {
        run: NO_TICKS,
        status: Status::Done,
        said: b"guarded\nbalanced\n",
        outputs: &[(b"y.txt", b"")],
        ..row
    };
    expect_row(&rt, alloc, &row)?;

    let mut files = MemFiles::new(alloc, Vec::new(alloc))?;
    for name in [b"source".as_slice(), b"table", b"report"] {
        put(alloc, &mut files, name, b"")?;
        expect_ends(&rt, alloc, &EXPECT, &mut files, Status::ReadFault, b"")?;
    }
    Ok(())
}

// How `expect` ends where this call of the files fails: only where none does it says something, and
// the output is as before where a read fails.
fn ended_at(rt: &impl Abort, alloc: Global, report: &[u8], call: u64) -> Result<Status, Fail> {
    let mut files = held(alloc, &DOUBLED, report, &[call])?;
    let mut say = MemSay::new(alloc, Vec::new(alloc))?;
    let ended = run(alloc, &EXPECT, &mut files, &mut say)?;
    assert!(rt; say.bytes().is_empty() == (ended != Status::Done));
    if ended == Status::ReadFault {
        expect_file(rt, alloc, &mut files, b"y.txt", b"as before")?;
    }
    Ok(ended)
}

// The first calls of `expect` are two reads of each of the four files. After those of the input
// come `create` and `append` of the output.
#[test]
fn the_first_call_that_fails_ends_expect(rt: HostRuntime) -> Result<(), Fail> {
    let alloc = rt.alloc();
    let report = report_of(&rt, alloc, &DOUBLED)?;
    let mut writes = 0u64;
    for call in 1..20 {
        let ended = ended_at(&rt, alloc, &report, call)?;
        match ended {
            Status::ReadFault => assert!(rt; writes == 0),
            Status::WriteFault => writes = writes.saturating_add(1),
            _ => {
                assert!(rt; ended == Status::Done);
                assert!(rt; writes == 2);
            }
        }
        assert!(rt; ended == Status::ReadFault || call > 8, "call {call}");
    }
    assert!(rt; writes == 2);

    let mut files = held(alloc, &DOUBLED, &report, &[])?;
    expect_unsaid(&rt, alloc, &EXPECT, &mut files)?;
    expect_file(&rt, alloc, &mut files, b"y.txt", b"00\nfe\n")
}
