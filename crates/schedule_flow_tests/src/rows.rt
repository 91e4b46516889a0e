// Kernels with their least bits, the earliest times that need no more, and the chains of words.
use crate::problems::{Edge, Producer};

/// A chain: the producer, its words and its taps.
pub type Chain = (u32, u64, &'static [u64]);

/// A kernel, and what scheduling it gives.
pub struct Row {
    pub nodes: u16,
    pub edges: &'static [Edge],
    pub producers: &'static [Producer],
    pub base: u64,
    pub bits: i128,
    pub times: &'static [i64],
    pub chains: &'static [Chain],
}

/// The word before, the word and the word after, added in two sums of latency 1.
pub const SUM_OF_NEIGHBOURS: Row = Row {
    nodes: 6,
    edges: &[
        (0, 2, 0, -1),
        (0, 2, 0, 0),
        (2, 4, 1, 0),
        (0, 4, 0, 1),
        (4, 5, 1, 0),
    ],
    producers: &[(0, 32, 2), (2, 32, 4), (4, 32, 5)],
    base: 64,
    bits: 32,
    times: &[0, 0, 0, 0, 1, 2],
    chains: &[(0, 1, &[1])],
};

/// Times of a problem, what they cost, and the first arc that they break.
pub type Costs = (&'static [i64], i128, Option<u32>);

/// The best times, later ones, and times at which the second sum is early; each with the last ticks in
/// which words are read.
pub const NEIGHBOURS_COSTS: &[Costs] = &[
    (&[0, 0, 0, 0, 1, 2, 1, 0, 1, 0, 2, 0], 32, None),
    (&[0, 0, 0, 0, 2, 3, 1, 0, 2, 0, 3, 0], 64, None),
    (&[0, 0, 0, 0, 0, 2, 1, 0, 0, 0, 2, 0], 32, Some(4)),
];

/// A word and its square of latency 3, each in 64 bits, added.
pub const SQUARE_AND_WORD: Row = Row {
    nodes: 6,
    edges: &[
        (0, 1, 0, 0),
        (0, 1, 0, 0),
        (0, 2, 0, 0),
        (1, 3, 3, 0),
        (2, 4, 0, 0),
        (3, 4, 0, 0),
        (4, 5, 1, 0),
    ],
    producers: &[(0, 8, 1), (1, 8, 3), (2, 64, 4), (3, 64, 4), (4, 64, 5)],
    base: 88,
    bits: 24,
    times: &[0, 0, 3, 3, 3, 4],
    chains: &[(0, 3, &[3])],
};

/// A sum with the sum before it.
const RUNNING_SUM: Row = Row {
    nodes: 10,
    edges: &[
        (7, 2, 1, -1),
        (1, 4, 0, 0),
        (4, 6, 0, 0),
        (2, 6, 0, 0),
        (0, 7, 0, 0),
        (6, 7, 0, 0),
        (7, 9, 1, 0),
    ],
    producers: &[
        (0, 32, 7),
        (1, 32, 4),
        (2, 32, 6),
        (4, 1, 6),
        (6, 32, 7),
        (7, 32, 9),
    ],
    base: 32,
    bits: 0,
    times: &[0, 0, 0, 0, 0, 0, 0, 0, 0, 1],
    chains: &[],
};

/// A word and the word 40,000 before it, added.
const LONG: Row = Row {
    nodes: 4,
    edges: &[(0, 2, 0, 0), (0, 2, 0, -40000), (2, 3, 0, 0)],
    producers: &[(0, 8, 2), (2, 8, 3)],
    base: 0,
    bits: 320000,
    times: &[0, 0, 0, 0],
    chains: &[(0, 40000, &[40000])],
};

/// An image of rows of 1,920 points: each point and those above and below it, added. A counter of rows
/// tells the first and the last row.
const STENCIL: Row = Row {
    nodes: 17,
    edges: &[
        (1, 2, 0, 0),
        (1, 3, 0, 0),
        (2, 5, 0, 0),
        (5, 8, 0, 0),
        (0, 8, 0, -1920),
        (2, 10, 0, 0),
        (10, 13, 0, 0),
        (0, 13, 0, 1920),
        (8, 14, 0, 0),
        (0, 14, 0, 0),
        (14, 15, 0, 0),
        (13, 15, 0, 0),
        (15, 16, 0, 0),
    ],
    producers: &[
        (0, 8, 8),
        (1, 22, 2),
        (2, 11, 5),
        (5, 1, 8),
        (8, 8, 14),
        (10, 1, 13),
        (13, 8, 15),
        (14, 8, 15),
        (15, 8, 16),
    ],
    base: 0,
    bits: 30720,
    times: &[
        0, 1920, 1920, 1920, 0, 1920, 0, 0, 1920, 0, 1920, 0, 0, 1920, 1920, 1920, 1920,
    ],
    chains: &[(0, 3840, &[1920, 3840])],
};

pub const ROWS: &[Row] = &[
    SUM_OF_NEIGHBOURS,
    SQUARE_AND_WORD,
    RUNNING_SUM,
    LONG,
    STENCIL,
];
