// The links between the kernels of a project.
use mx_base::List;

/// A port of a kernel: the number of the kernel in its project, and that of the port's node in the
/// kernel.
#[derive(Clone, Copy, Debug, PartialEq, Eq)]
pub struct PortAt {
    pub kernel: u32,
    pub node: u32,
}

/// The output that a link comes from, and the input that it goes to.
#[derive(Clone, Copy, PartialEq, Eq)]
pub struct LinkEnds {
    pub from: PortAt,
    pub to: PortAt,
}

/// A link between two kernels, the FIFO by which words go from an output to an input: it holds at
/// most `depth` words.
#[derive(Clone, Copy, Debug, PartialEq, Eq)]
pub struct Link {
    pub from: PortAt,
    pub to: PortAt,
    pub depth: u32,
}

/// The start of each kernel of a project, in edges, and the links between the kernels, in the order
/// of the plan's joins. A node of time `s` of a kernel that starts at `n` is in its first tick in
/// edge `n + s`, edges counted from 0, where nothing waits.
#[derive(Debug, Drop, PartialEq, Eq)]
pub struct Links {
    pub starts: List<u64>,
    pub links: List<Link>,
}
