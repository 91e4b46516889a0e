// Managers that link kernels: what is compiled, checked and simulated, and what is refused.
use crate::commands::{CHECK, SIMULATE, expect_ends};
use crate::files::put;
use crate::kernel_tests::{Left, Worked, compiled, expect_worked};
use crate::schedule_tests::MANAGER;
use crate::tests::{IMMEDIATE, expect_end, text};
use maxjc_core::Status;
use mx_base::{MemFiles, read_whole};
use std::alloc::Global;
use std::process::Abort;
use std::test::Fail;

// A kernel twice, each of which waits for the other.
const RING: &[u8] = b"class Pass extends Kernel {
  Pass(KernelParameters p) {
    super(p);
    DFEVar x = io.input(\"x\", dfeUInt(8));
    io.output(\"y\", x, dfeUInt(8));
  }
}
class M extends CustomManager {
  M(EngineParameters e) {
    super(e);
    KernelBlock a = addKernel(new Pass(makeKernelParameters(\"A\")));
    KernelBlock b = addKernel(new Pass(makeKernelParameters(\"B\")));
    a.getInput(\"x\") <== b.getOutput(\"y\");
    b.getInput(\"x\") <== a.getOutput(\"y\");
  }
}
";

// A kernel twice, one behind the other.
pub(crate) const CHAIN: &[u8] = b"class Pass extends Kernel {
  Pass(KernelParameters p) {
    super(p);
    DFEVar x = io.input(\"x\", dfeUInt(8));
    io.output(\"y\", x, dfeUInt(8));
  }
}
class M extends CustomManager {
  M(EngineParameters e) {
    super(e);
    KernelBlock a = addKernel(new Pass(makeKernelParameters(\"A\")));
    KernelBlock b = addKernel(new Pass(makeKernelParameters(\"B\")));
    a.getInput(\"x\") <== addStreamFromCPU(\"x\");
    b.getInput(\"x\") <== a.getOutput(\"y\");
    addStreamToCPU(\"y\") <== b.getOutput(\"y\");
  }
}
";

// A kernel that splits its input into two streams, the first one as this expression says, the second
// one so many words ahead, and one that adds them up.
pub(crate) fn split_and_add(alloc: Global, first: &str, ahead: u32) -> Result<Vec<u8>, Fail> {
    let source = format!(in alloc;
        "class Split extends Kernel {{
  Split(KernelParameters p) {{
    super(p);
    DFEVar x = io.input(\"x\", dfeUInt(8));
    io.output(\"p\", {first}, dfeUInt(8));
    io.output(\"q\", stream.offset(x, {ahead}), dfeUInt(8));
  }}
}}
class Add2 extends Kernel {{
  Add2(KernelParameters p) {{
    super(p);
    DFEVar p1 = io.input(\"p\", dfeUInt(8));
    DFEVar q1 = io.input(\"q\", dfeUInt(8));
    io.output(\"y\", p1 + q1, dfeUInt(8));
  }}
}}
class M extends CustomManager {{
  M(EngineParameters e) {{
    super(e);
    KernelBlock a = addKernel(new Split(makeKernelParameters(\"A\")));
    KernelBlock b = addKernel(new Add2(makeKernelParameters(\"B\")));
    a.getInput(\"x\") <== addStreamFromCPU(\"x\");
    b.getInput(\"p\") <== a.getOutput(\"p\");
    b.getInput(\"q\") <== a.getOutput(\"q\");
    addStreamToCPU(\"y\") <== b.getOutput(\"y\");
  }}
}}
"
    )?;
    Ok(source.into_bytes())
}

#[test]
fn projects_are_refused(rt: HostRuntime) -> Result<(), Fail> {
    let alloc = rt.alloc();
    let deep = split_and_add(alloc, "x", 70_000)?;
    for (source, said) in [
        (MANAGER, b"refused P9 0\n".as_slice()),
        (RING, b"refused P5 A B\n"),
        (deep.as_slice(), b"refused P6 0 70002\n"),
    ] {
        expect_end(&rt, alloc, source, Status::Refused, said)?;
    }
    Ok(())
}

// The second kernel waits for a word that the first one doesn't give.
#[test]
fn words_pass_through_two_kernels(rt: HostRuntime) -> Result<(), Fail> {
    let chain = Worked {
        source: CHAIN,
        table: IMMEDIATE,
        run: b"{\"ticks\":{\"A\":4,\"B\":5},\"inputs\":{\"x\":\"x.txt\"},\"outputs\":{\"y\":\"y.txt\"},\"edges\":100}",
        inputs: &[(b"x.txt", b"01\n02\n03\n04\n")],
        compiled: b"kernel A fifo 0\nkernel B fifo 0\nlink 0 depth 2\n",
        simulated: b"not done after 100 edges\n",
        status: Status::EdgeLimit,
        outputs: &[Left {
            name: b"y.txt",
            words: b"01\n02\n03\n04\n",
            free: 0,
        }],
    };
    expect_worked(&rt, rt.alloc(), &chain)
}

const DIGITS: [u8; 16] = *b"0123456789abcdef";

// The lines of so many words of 8 bits: the first one, and each next one so much greater.
fn lines_of(alloc: Global, count: u32, first: u8, step: u8) -> Result<Vec<u8>, Fail> {
    let mut lines = Vec::new(alloc);
    let mut word = first;
    for _ in 0..count {
        lines.push(DIGITS[usize::from(word / 16)])?;
        lines.push(DIGITS[usize::from(word % 16)])?;
        lines.push(b'\n')?;
        word = word.wrapping_add(step);
    }
    Ok(lines)
}

const RUN: &[u8] =
    b"{\"ticks\":{\"A\":200,\"B\":200},\"inputs\":{\"x\":\"x.txt\"},\"outputs\":{\"y\":\"y.txt\"},\"edges\":1000000}";

// The text that these files hold gives the sums of the words that are 5 and 100 ahead. The last hundred
// words look past the end of the input, and nothing binds them. A line has 3 bytes.
fn expect_sums(rt: &impl Abort, alloc: Global, files: &mut MemFiles) -> Result<(), Fail> {
    put(alloc, files, b"run", RUN)?;
    put(alloc, files, b"x.txt", &lines_of(alloc, 200, 0, 1)?)?;
    let done = b"done after 303 edges\n";
    expect_ends(rt, alloc, &SIMULATE, files, Status::Done, done)?;

    let left = read_whole(alloc, files, &text(alloc, b"y.txt")?, 10_000)?;
    let sums = lines_of(alloc, 100, 105, 2)?;
    assert!(rt; left.starts_with(&sums), "{:?}", text(alloc, &left)?);
    assert!(rt; left.len() == 600);
    Ok(())
}

#[test]
fn streams_that_part_meet_again(rt: HostRuntime) -> Result<(), Fail> {
    let alloc = rt.alloc();
    let source = split_and_add(alloc, "stream.offset(x, 5)", 100)?;
    let summary: &[u8] = b"kernel A fifo 0\nkernel B fifo 0\nlink 0 depth 97\nlink 1 depth 2\n";
    let mut files = compiled(&rt, alloc, &source, IMMEDIATE, summary)?;
    let least = b"kernel A least 0\nkernel B least 0\n";
    expect_ends(&rt, alloc, &CHECK, &mut files, Status::Done, least)?;
    expect_sums(&rt, alloc, &mut files)
}
