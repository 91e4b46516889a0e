// What a manager builds: kernels, streams from and to the CPU, and the joins between them.
use fix_arith::StreamType;
use mx_base::{List, Text};

/// The value of a kernel's parameter after the first.
#[derive(Clone, Copy, PartialEq, Eq)]
pub enum Arg {
    Int(i32),
    Flag(bool),
    Stream(StreamType),
}

/// A kernel that is added: its name, the number of its class among those of the source, and the
/// arguments for its parameters after the first.
#[derive(Drop)]
pub struct Made {
    pub name: Text,
    pub class: u32,
    pub args: List<Arg>,
}

/// An end of a join: a port of a kernel, by the kernel's number and the port's name, or a stream
/// from or to the CPU.
#[derive(Drop)]
pub enum End {
    Kernel(u32, Text),
    Cpu(Text),
}

/// The side of `<==` that an end may stand on: words come from the right one to the left one.
#[derive(Clone, Copy, Debug, PartialEq, Eq)]
pub enum Side {
    Left,
    Right,
}

/// Two ends that are joined: words go from `right` to `left`.
#[derive(Drop)]
pub struct Join {
    pub left: End,
    pub right: End,
}

/// What is built: the kernels, the streams from and to the CPU, and the joins, each in the order in
/// which the manager makes them. `manager` is whether there is one.
#[derive(Drop)]
pub struct Plan {
    pub manager: bool,
    pub kernels: List<Made>,
    pub from_cpu: List<Text>,
    pub to_cpu: List<Text>,
    pub joins: List<Join>,
}
