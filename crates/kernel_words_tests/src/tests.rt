// Worked words.
use crate::kernels::QUOT;
use crate::running::{Ran, run_alone};
use kernel_eval_tests::{ACC, Built, FOURTH, GUARD, NEXT, SUM3, build_alone};
use std::alloc::Global;
use std::process::Abort;
use std::test::Fail;
use stream_graph::Kernel;

// A source, the name of its kernel, its ticks, the words of its inputs, and those of its output.
const WORDS: [(&str, &str, u64, &[&[u128]], &[Option<u128>]); 6] = [
    (
        NEXT,
        "Next",
        4,
        &[&[1, 2, 3, 4]],
        &[Some(2), Some(3), Some(4), None],
    ),
    (
        GUARD,
        "Guard",
        4,
        &[&[1, 2, 3, 4]],
        &[Some(2), Some(3), Some(4), Some(0)],
    ),
    (
        FOURTH,
        "Fourth",
        8,
        &[&[0, 1, 2, 3, 4, 5, 6, 7]],
        &[Some(3), Some(7)],
    ),
    (ACC, "Acc", 3, &[&[1, 2, 3]], &[Some(1), Some(3), Some(6)]),
    (
        QUOT,
        "Quot",
        3,
        &[&[0xf9, 0x80, 0x05], &[0x02, 0xff, 0x00]],
        &[Some(0xfd), Some(0x80), None],
    ),
    (SUM3, "Sum3", 3, &[&[1, 2, 3]], &[None, Some(6), None]),
];

// A kernel computes these words in so many ticks, and its run is guarded.
fn expect_words(
    rt: &impl Abort,
    alloc: Global,
    kernel: &Kernel,
    ticks: u64,
    inputs: &[&[u128]],
    words: &[Option<u128>],
) -> Result<(), Fail> {
    match run_alone(alloc, kernel, ticks, inputs)? {
        Ran::Words(found, guarded) => {
            assert!(rt; found.as_slice() == words);
            assert!(rt; guarded);
        }
        Ran::NotRun => assert!(rt; false),
    }
    Ok(())
}

#[test]
fn kernels_compute_these_words(rt: HostRuntime) -> Result<(), Fail> {
    let alloc = rt.alloc();
    for (source, name, ticks, inputs, words) in WORDS {
        let built = build_alone(alloc, source.as_bytes(), name.as_bytes())?;
        match &built {
            Built::Kernel(kernel) => expect_words(&rt, alloc, kernel, ticks, inputs, words)?,
            Built::Refused(line) => assert!(rt; false, "{name}: {line:?}"),
        }
    }
    Ok(())
}
