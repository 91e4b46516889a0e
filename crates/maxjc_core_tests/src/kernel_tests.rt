// Worked kernels, from their sources to the words that leave.
use crate::commands::{COMPILE, expect_ends, expect_stalled};
use crate::files::{files_with, put, put_all};
use crate::kernel_sources::{
    FAR, FIVE, LONG, NEXT, QUOT, SINK, SLOW, SQUARE, STENCIL, SUM3, TIES, WIDE, ZERO,
};
use crate::tests::{DOUBLE, IMMEDIATE, expect_end_with, text};
use maxjc_core::Status;
use mx_base::{MemFiles, read_whole};
use std::alloc::Global;
use std::process::Abort;
use std::test::Fail;

// An output file: these lines, and then a line with a word of so many digits that nothing binds, or
// no further line where there are 0.
#[derive(Clone, Copy)]
pub(crate) struct Left<'a> {
    pub name: &'a [u8],
    pub words: &'a [u8],
    pub free: usize,
}

// A kernel with a latency table, and a run file with its input files, each a name and its lines: what
// `compile` says, what `simulate` says, its status, and the output files. Port 1 stalls wherever the
// pattern number isn't 0; inputs are numbered first, and then outputs.
#[derive(Clone, Copy)]
pub(crate) struct Worked<'a> {
    pub source: &'a [u8],
    pub table: &'a [u8],
    pub run: &'a [u8],
    pub inputs: &'a [(&'a [u8], &'a [u8])],
    pub compiled: &'a [u8],
    pub simulated: &'a [u8],
    pub status: Status,
    pub outputs: &'a [Left<'a>],
}

// Where no operation takes a tick, no word is kept and nothing stalls, the word of tick t has left
// after t + 3 edges: in one it goes into the FIFO of an input, in one through the kernel into the
// FIFO of an output, and in one it leaves. Where an output is so many ticks later, its words are, too.
const WORKED: [Worked<'static>; 10] = [
    Worked {
        source: DOUBLE,
        table: IMMEDIATE,
        run: b"{\"ticks\":{\"Double\":2},\"inputs\":{\"x\":\"x.txt\"},\"outputs\":{\"y\":\"y.txt\"},\"edges\":1000}",
        inputs: &[(b"x.txt", b"80\nff\n")],
        compiled: b"kernel Double fifo 0\n",
        simulated: b"done after 4 edges\n",
        status: Status::Done,
        outputs: &[Left {
            name: b"y.txt",
            words: b"00\nfe\n",
            free: 0,
        }],
    },
    Worked {
        source: DOUBLE,
        table: IMMEDIATE,
        run: b"{\"ticks\":{\"Double\":0},\"inputs\":{\"x\":\"x.txt\"},\"outputs\":{\"y\":\"y.txt\"},\"edges\":1000}",
        inputs: &[(b"x.txt", b"")],
        compiled: b"kernel Double fifo 0\n",
        simulated: b"done after 0 edges\n",
        status: Status::Done,
        outputs: &[Left {
            name: b"y.txt",
            words: b"",
            free: 0,
        }],
    },
    Worked {
        source: ZERO,
        table: IMMEDIATE,
        run: b"{\"ticks\":{\"Zero\":2},\"inputs\":{\"x\":\"x.txt\"},\"outputs\":{\"y\":\"y.txt\"},\"edges\":1000,\"pattern\":1}",
        inputs: &[(b"x.txt", b"01\n02\n")],
        compiled: b"kernel Zero fifo 0\n",
        simulated: b"not done after 1000 edges\n",
        status: Status::EdgeLimit,
        outputs: &[Left {
            name: b"y.txt",
            words: b"",
            free: 0,
        }],
    },
    Worked {
        source: SQUARE,
        table: SLOW,
        run: b"{\"ticks\":{\"Square\":2},\"inputs\":{\"x\":\"x.txt\"},\"outputs\":{\"y\":\"y.txt\"},\"edges\":1000}",
        inputs: &[(b"x.txt", b"03\nff\n")],
        compiled: b"kernel Square fifo 24\n",
        simulated: b"done after 8 edges\n",
        status: Status::Done,
        outputs: &[Left {
            name: b"y.txt",
            words: b"000000000000000c\n0000000000000100\n",
            free: 0,
        }],
    },
    Worked {
        source: NEXT,
        table: IMMEDIATE,
        run: b"{\"ticks\":{\"Next\":4},\"inputs\":{\"x\":\"x.txt\"},\"outputs\":{\"y\":\"y.txt\"},\"edges\":1000}",
        inputs: &[(b"x.txt", b"01\n02\n03\n04\n")],
        compiled: b"kernel Next fifo 0\n",
        simulated: b"done after 7 edges\n",
        status: Status::Done,
        outputs: &[Left {
            name: b"y.txt",
            words: b"02\n03\n04\n",
            free: 2,
        }],
    },
    Worked {
        source: TIES,
        table: IMMEDIATE,
        run: b"{\"ticks\":{\"Ties\":3},\"inputs\":{\"x\":\"x.txt\"},\"outputs\":{\"a\":\"a.txt\",\"b\":\"b.txt\",\"c\":\"c.txt\"},\"edges\":1000}",
        inputs: &[(b"x.txt", b"28\n38\nd8\n")],
        compiled: b"kernel Ties fifo 0\n",
        simulated: b"done after 5 edges\n",
        status: Status::Done,
        outputs: &[
            Left {
                name: b"a.txt",
                words: b"2\n3\nd\n",
                free: 0,
            },
            Left {
                name: b"b.txt",
                words: b"3\n4\ne\n",
                free: 0,
            },
            Left {
                name: b"c.txt",
                words: b"2\n4\ne\n",
                free: 0,
            },
        ],
    },
    Worked {
        source: WIDE,
        table: IMMEDIATE,
        run: b"{\"ticks\":{\"Wide\":1},\"inputs\":{\"x\":\"x.txt\"},\"outputs\":{\"y\":\"y.txt\"},\"edges\":1000}",
        inputs: &[(b"x.txt", b"ffffffffffffffffffffffffffffffff\n")],
        compiled: b"kernel Wide fifo 0\n",
        simulated: b"done after 3 edges\n",
        status: Status::Done,
        outputs: &[Left {
            name: b"y.txt",
            words: b"00000000000000000000000000000001\n",
            free: 0,
        }],
    },
    Worked {
        source: QUOT,
        table: IMMEDIATE,
        run: b"{\"ticks\":{\"Quot\":3},\"inputs\":{\"a\":\"a.txt\",\"b\":\"b.txt\"},\"outputs\":{\"q\":\"q.txt\"},\"edges\":1000}",
        inputs: &[(b"a.txt", b"f9\n80\n05\n"), (b"b.txt", b"02\nff\n00\n")],
        compiled: b"kernel Quot fifo 0\n",
        simulated: b"done after 5 edges\n",
        status: Status::Done,
        outputs: &[Left {
            name: b"q.txt",
            words: b"fd\n80\n",
            free: 2,
        }],
    },
    // no word waits for one of an input
    Worked {
        source: FIVE,
        table: IMMEDIATE,
        run: b"{\"ticks\":{\"Five\":3},\"inputs\":{},\"outputs\":{\"y\":\"y.txt\"},\"edges\":1000}",
        inputs: &[],
        compiled: b"kernel Five fifo 0\n",
        simulated: b"done after 4 edges\n",
        status: Status::Done,
        outputs: &[Left {
            name: b"y.txt",
            words: b"05\n05\n05\n",
            free: 0,
        }],
    },
    // the kernel has ended when it has taken its last word
    Worked {
        source: SINK,
        table: IMMEDIATE,
        run: b"{\"ticks\":{\"Sink\":2},\"inputs\":{\"x\":\"x.txt\"},\"outputs\":{},\"edges\":1000}",
        inputs: &[(b"x.txt", b"01\n02\n")],
        compiled: b"kernel Sink fifo 0\n",
        simulated: b"done after 3 edges\n",
        status: Status::Done,
        outputs: &[],
    },
];

// Files in memory with the text of this source by this table, which is compiled and of which this is
// said.
pub(crate) fn compiled(
    rt: &impl Abort,
    alloc: Global,
    source: &[u8],
    table: &[u8],
    said: &[u8],
) -> Result<MemFiles, Fail> {
    let mut files = files_with(alloc, &[(b"source", source), (b"table", table)], &[])?;
    expect_ends(rt, alloc, &COMPILE, &mut files, Status::Done, said)?;
    Ok(files)
}

// Runs the text that the files hold as the worked kernel asks.
fn simulate(
    rt: &impl Abort,
    alloc: Global,
    worked: &Worked<'_>,
    files: &mut MemFiles,
) -> Result<(), Fail> {
    put(alloc, files, b"run", worked.run)?;
    put_all(alloc, files, worked.inputs)?;
    expect_stalled(rt, alloc, files, worked.status, worked.simulated)
}

// Whether this is a line of so many hexadecimal digits, or nothing where there are 0.
fn is_free(rest: &[u8], digits: usize) -> bool {
    match rest.split_last() {
        Some((last, word)) => *last == b'\n' && word.len() == digits && are_digits(word),
        None => digits == 0,
    }
}

fn are_digits(word: &[u8]) -> bool {
    for digit in word {
        if !matches!(digit, b'0'..=b'9' | b'a'..=b'f') {
            return false;
        }
    }
    !word.is_empty()
}

// Whether an output file is as it should be.
fn is_left(held: &[u8], left: &Left<'_>) -> bool {
    match held.strip_prefix(left.words) {
        Some(rest) => is_free(rest, left.free),
        None => false,
    }
}

fn expect_left(
    rt: &impl Abort,
    alloc: Global,
    files: &mut MemFiles,
    left: &Left<'_>,
) -> Result<(), Fail> {
    let name = text(alloc, left.name)?;
    let held = read_whole(alloc, files, &name, 10_000)?;
    let is_right = is_left(held.as_slice(), left);
    assert!(rt;
        is_right,
        "{:?} holds {:?}",
        name,
        text(alloc, held.as_slice())?
    );
    Ok(())
}

// Compiles the kernel, runs it, and looks at what left.
pub(crate) fn expect_worked(
    rt: &impl Abort,
    alloc: Global,
    worked: &Worked<'_>,
) -> Result<(), Fail> {
    let mut files = compiled(rt, alloc, worked.source, worked.table, worked.compiled)?;
    simulate(rt, alloc, worked, &mut files)?;
    for left in worked.outputs {
        expect_left(rt, alloc, &mut files, left)?;
    }
    Ok(())
}

#[test]
fn words_leave_compiled_kernels(rt: HostRuntime) -> Result<(), Fail> {
    for worked in &WORKED {
        expect_worked(&rt, rt.alloc(), worked)?;
    }
    Ok(())
}

// Sources and tables, each with what `compile` says. The FIFOs of the last one hold 3 * 128 * 2^20
// bits at least, which are more than 2^28.
#[test]
fn fifos_hold_the_fewest_bits(rt: HostRuntime) -> Result<(), Fail> {
    for (source, table, status, said) in [
        (
            SUM3,
            SLOW,
            Status::Done,
            b"kernel Sum3 fifo 32\n".as_slice(),
        ),
        (LONG, IMMEDIATE, Status::Done, b"kernel Long fifo 320000\n"),
        // two lines of 1,920 bytes
        (
            STENCIL,
            IMMEDIATE,
            Status::Done,
            b"kernel Stencil fifo 30720\n",
        ),
        (
            FAR,
            IMMEDIATE,
            Status::Refused,
            b"refused B1 Far 402653184\n",
        ),
    ] {
        expect_end_with(&rt, rt.alloc(), source, table, status, said)?;
    }
    Ok(())
}
