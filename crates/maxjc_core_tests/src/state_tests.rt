// Worked kernels with counters, holds, feeds, scalars and controls of ports.
use crate::kernel_sources::{ACC, FOURTH, GUARD, KEPT, NEST, SECOND, SHIFTED, SLOW};
use crate::kernel_tests::{Left, Worked, expect_worked};
use crate::tests::IMMEDIATE;
use maxjc_core::Status;
use std::test::Fail;

const WORKED: [Worked<'static>; 7] = [
    // the sum takes a tick
    Worked {
        source: ACC,
        table: SLOW,
        run: b"{\"ticks\":{\"Acc\":3},\"inputs\":{\"x\":\"x.txt\"},\"outputs\":{\"y\":\"y.txt\"},\"edges\":1000000}",
        inputs: &[(b"x.txt", b"00000001\n00000002\n00000003\n")],
        compiled: b"kernel Acc fifo 0\n",
        simulated: b"done after 6 edges\n",
        status: Status::Done,
        outputs: &[Left {
            name: b"y.txt",
            words: b"00000001\n00000003\n00000006\n",
            free: 0,
        }],
    },
    Worked {
        source: GUARD,
        table: IMMEDIATE,
        run: b"{\"ticks\":{\"Guard\":4},\"inputs\":{\"x\":\"x.txt\"},\"outputs\":{\"y\":\"y.txt\"},\"edges\":1000000}",
        inputs: &[(b"x.txt", b"01\n02\n03\n04\n")],
        compiled: b"kernel Guard fifo 0\n",
        simulated: b"done after 7 edges\n",
        status: Status::Done,
        outputs: &[Left {
            name: b"y.txt",
            words: b"02\n03\n04\n00\n",
            free: 0,
        }],
    },
    // the word of tick 7 leaves in the edge after 1 + 7 + 1 others
    Worked {
        source: FOURTH,
        table: IMMEDIATE,
        run: b"{\"ticks\":{\"Fourth\":8},\"inputs\":{\"x\":\"x.txt\"},\"outputs\":{\"y\":\"y.txt\"},\"edges\":1000000}",
        inputs: &[(b"x.txt", b"00\n01\n02\n03\n04\n05\n06\n07\n")],
        compiled: b"kernel Fourth fifo 0\n",
        simulated: b"done after 10 edges\n",
        status: Status::Done,
        outputs: &[Left {
            name: b"y.txt",
            words: b"03\n07\n",
            free: 0,
        }],
    },
    // no word waits for one of an input
    Worked {
        source: NEST,
        table: IMMEDIATE,
        run: b"{\"ticks\":{\"Nest\":6},\"inputs\":{},\"outputs\":{\"outer\":\"outer.txt\",\"inner\":\"inner.txt\"},\"edges\":1000000}",
        inputs: &[],
        compiled: b"kernel Nest fifo 0\n",
        simulated: b"done after 7 edges\n",
        status: Status::Done,
        outputs: &[
            Left {
                name: b"outer.txt",
                words: b"0\n0\n0\n1\n1\n1\n",
                free: 0,
            },
            Left {
                name: b"inner.txt",
                words: b"0\n1\n2\n0\n1\n2\n",
                free: 0,
            },
        ],
    },
    Worked {
        source: KEPT,
        table: IMMEDIATE,
        run: b"{\"ticks\":{\"Kept\":5},\"inputs\":{\"x\":\"x.txt\"},\"outputs\":{\"y\":\"y.txt\"},\"edges\":1000000}",
        inputs: &[(b"x.txt", b"0a\n0b\n0c\n0d\n0e\n")],
        compiled: b"kernel Kept fifo 0\n",
        simulated: b"done after 7 edges\n",
        status: Status::Done,
        outputs: &[Left {
            name: b"y.txt",
            words: b"00\n00\n0c\n0c\n0c\n",
            free: 0,
        }],
    },
    Worked {
        source: SHIFTED,
        table: IMMEDIATE,
        run: b"{\"ticks\":{\"Shifted\":3},\"scalars\":{\"Shifted.a\":\"f0\"},\"inputs\":{\"x\":\"x.txt\"},\"outputs\":{\"y\":\"y.txt\"},\"edges\":1000000}",
        inputs: &[(b"x.txt", b"01\n0f\n10\n")],
        compiled: b"kernel Shifted fifo 0\n",
        simulated: b"done after 5 edges\n",
        status: Status::Done,
        outputs: &[Left {
            name: b"y.txt",
            words: b"f1\nff\n00\n",
            free: 0,
        }],
    },
    // tick 0 waits for no word
    Worked {
        source: SECOND,
        table: IMMEDIATE,
        run: b"{\"ticks\":{\"Second\":5},\"inputs\":{\"x\":\"x.txt\"},\"outputs\":{\"y\":\"y.txt\"},\"edges\":1000000}",
        inputs: &[(b"x.txt", b"0a\n0b\n")],
        compiled: b"kernel Second fifo 0\n",
        simulated: b"done after 5 edges\n",
        status: Status::Done,
        outputs: &[Left {
            name: b"y.txt",
            words: b"0a\n0b\n",
            free: 0,
        }],
    },
];

#[test]
fn words_leave_kernels_with_states(rt: HostRuntime) -> Result<(), Fail> {
    for worked in &WORKED {
        expect_worked(&rt, rt.alloc(), worked)?;
    }
    Ok(())
}
