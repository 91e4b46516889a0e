// What worked managers build.
use crate::projects::{PASS_TWICE, RING, SPLIT_ADD, SPLIT_ADD_FAR, TAKE};
use fix_arith::StreamType;
use kernel_meaning::Arg;

/// An end of a join: a port of a kernel, by the kernel's number, or a stream from or to the CPU.
#[derive(Clone, Copy, Debug, PartialEq, Eq)]
pub enum EndOf<'a> {
    Kernel(u32, &'a [u8]),
    Cpu(&'a [u8]),
}

/// A kernel: its name, the number of its class, and its arguments.
pub type Added = (&'static [u8], u32, &'static [Arg]);

/// The project of a source: its kernels, the streams from and to the CPU, and the ends of each join,
/// the one that takes the words first.
pub struct Project {
    pub source: &'static str,
    pub kernels: &'static [Added],
    pub from_cpu: &'static [&'static [u8]],
    pub to_cpu: &'static [&'static [u8]],
    pub joins: &'static [(EndOf<'static>, EndOf<'static>)],
}

const SPLIT_JOINS: &[(EndOf<'static>, EndOf<'static>)] = &[
    (EndOf::Kernel(0, b"x"), EndOf::Cpu(b"x")),
    (EndOf::Kernel(1, b"p"), EndOf::Kernel(0, b"p")),
    (EndOf::Kernel(1, b"q"), EndOf::Kernel(0, b"q")),
    (EndOf::Cpu(b"y"), EndOf::Kernel(1, b"y")),
];

/// The arguments of `Take` by which its words are doubled twice, or not at all.
pub const DOUBLED_TWICE: &[Arg] = &[
    Arg::Int(2),
    Arg::Flag(true),
    Arg::Stream(StreamType::Int(8)),
];

pub const NOT_DOUBLED: &[Arg] = &[Arg::Int(2), Arg::Flag(false), Arg::Stream(StreamType::Bool)];

pub const PROJECTS: &[Project] = &[
    Project {
        source: SPLIT_ADD,
        kernels: &[(b"A", 0, &[]), (b"B", 1, &[])],
        from_cpu: &[b"x"],
        to_cpu: &[b"y"],
        joins: SPLIT_JOINS,
    },
    Project {
        source: RING,
        kernels: &[(b"A", 0, &[]), (b"B", 0, &[])],
        from_cpu: &[],
        to_cpu: &[],
        joins: &[
            (EndOf::Kernel(0, b"x"), EndOf::Kernel(1, b"y")),
            (EndOf::Kernel(1, b"x"), EndOf::Kernel(0, b"y")),
        ],
    },
    Project {
        source: PASS_TWICE,
        kernels: &[(b"A", 0, &[]), (b"B", 0, &[])],
        from_cpu: &[b"x"],
        to_cpu: &[b"y"],
        joins: &[
            (EndOf::Kernel(0, b"x"), EndOf::Cpu(b"x")),
            (EndOf::Kernel(1, b"x"), EndOf::Kernel(0, b"y")),
            (EndOf::Cpu(b"y"), EndOf::Kernel(1, b"y")),
        ],
    },
    Project {
        source: SPLIT_ADD_FAR,
        kernels: &[(b"A", 0, &[]), (b"B", 1, &[])],
        from_cpu: &[b"x"],
        to_cpu: &[b"y"],
        joins: SPLIT_JOINS,
    },
    Project {
        source: TAKE,
        kernels: &[(b"A", 0, DOUBLED_TWICE), (b"B", 0, NOT_DOUBLED)],
        from_cpu: &[b"x", b"flag"],
        to_cpu: &[b"y", b"z"],
        joins: &[
            (EndOf::Kernel(0, b"x"), EndOf::Cpu(b"x")),
            (EndOf::Kernel(1, b"x"), EndOf::Cpu(b"flag")),
            (EndOf::Cpu(b"y"), EndOf::Kernel(0, b"y")),
            (EndOf::Cpu(b"z"), EndOf::Kernel(1, b"y")),
        ],
    },
];
