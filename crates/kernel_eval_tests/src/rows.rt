// Worked kernels: the numbers of the nodes that each of their nodes is made of.
use crate::kernels::{
    ACC, DOUBLE, FOURTH, GUARD, LONG, NEST, NEXT, PEEK, QUOT, SELF, SQUARE, STENCIL, SUM3, TIES,
    ZERO,
};

/// A source of one kernel, the kernel's name, and the operands of each of its nodes, in their order.
pub type Row = (&'static str, &'static str, &'static [&'static [u32]]);

pub const ROWS: [Row; 15] = [
    (DOUBLE, "Double", &[&[], &[0, 0], &[1]]),
    (ZERO, "Zero", &[&[], &[0, 0], &[1]]),
    (SUM3, "Sum3", &[&[], &[0], &[1, 0], &[0], &[2, 3], &[4]]),
    (SQUARE, "Square", &[&[], &[0, 0], &[0], &[1], &[2, 3], &[4]]),
    (
        ACC,
        "Acc",
        &[
            &[],
            &[],
            &[8],
            &[],
            &[1, 3],
            &[],
            &[4, 2, 5],
            &[0, 6],
            &[7],
            &[7],
        ],
    ),
    (SELF, "Self", &[&[0], &[0]]),
    (NEXT, "Next", &[&[], &[0], &[1]]),
    (
        GUARD,
        "Guard",
        &[&[], &[], &[], &[1, 2], &[0], &[], &[3, 4, 5], &[6]],
    ),
    (FOURTH, "Fourth", &[&[], &[], &[], &[1, 2], &[0, 3]]),
    (NEST, "Nest", &[&[], &[0], &[0], &[1], &[2]]),
    (TIES, "Ties", &[&[], &[0], &[1], &[0], &[3], &[0], &[5]]),
    (
        STENCIL,
        "Stencil",
        &[
            &[],
            &[],
            &[1],
            &[1],
            &[],
            &[2, 4],
            &[0],
            &[],
            &[5, 6, 7],
            &[],
            &[2, 9],
            &[0],
            &[],
            &[10, 11, 12],
            &[8, 0],
            &[14, 13],
            &[15],
        ],
    ),
    (LONG, "Long", &[&[], &[0], &[0, 1], &[2]]),
    (PEEK, "Peek", &[&[], &[0], &[], &[1, 2], &[0, 3]]),
    (QUOT, "Quot", &[&[], &[], &[0, 1], &[2]]),
];
