// The parts of a design.

use crate::{MemId, ModuleId, NetId};
use mx_base::{List, Text};
use mx_bits::Word;

/// A net of a module: a wire, or a register that keeps its value between edges.
///
/// Its width is 1 to 128 bits. A wire follows IEEE 1364-2005, 4.2.1, a register 4.2.2, and the range
/// `[width - 1:0]` of either 4.3.
#[derive(Drop)]
pub struct Net {
    pub name: Text,
    pub width: u8,
    pub reg: bool,
}

/// A memory of `depth` words of `width` bits (IEEE 1364-2005, 4.9.3).
///
/// The width is 1 to 128 and the depth 1 to 2^28. The words have the addresses from 0.
#[derive(Drop)]
pub struct Mem {
    pub name: Text,
    pub width: u8,
    pub depth: u32,
}

/// A port of a module: the wire of the module that it is, and whether it is an output
/// (IEEE 1364-2005, 12.3.4).
#[derive(Clone, Copy, Debug, PartialEq, Eq)]
pub struct Port {
    pub net: NetId,
    pub output: bool,
}

/// An operator of two operands, each of them unsigned.
///
/// `Add`, `Sub`, `Mul` and `Div` are those of IEEE 1364-2005, 5.1.5, `And`, `Or` and `Xor` those of
/// 5.1.10. `Eq` is `==` of 5.1.8 and `Lt` is `<` of 5.1.7, each with one bit as its result. A
/// quotient by 0 is 0, where the standard has `x`.
#[derive(Clone, Copy, PartialEq, Eq)]
pub enum Sign {
    Add,
    Sub,
    Mul,
    Div,
    And,
    Or,
    Xor,
    Eq,
    Lt,
}

/// The right side of an assignment. Its operands are nets and memories of the module, by number.
#[derive(Clone, Copy, PartialEq, Eq)]
pub enum Expr {
    /// The value of a net.
    Net(NetId),
    /// A number with a width (IEEE 1364-2005, 3.5.1).
    Literal(Word),
    /// Each bit of a net turned (IEEE 1364-2005, 5.1.10).
    Not(NetId),
    /// An operator with its left and its right net.
    Binary(Sign, NetId, NetId),
    /// The net of the high bits and the net of the low bits (IEEE 1364-2005, 5.1.14).
    Concat(NetId, NetId),
    /// A net so many times, at most 128, one after another (IEEE 1364-2005, 5.1.14).
    Repeat(u8, NetId),
    /// The bits of a net from the highest down to the lowest number given, each at most 128
    /// (IEEE 1364-2005, 5.2.1).
    Part(NetId, u8, u8),
    /// The second net where the first one is 1, and the third one else (IEEE 1364-2005, 5.1.13).
    Choose(NetId, NetId, NetId),
    /// The word of a memory at the address that a net has (IEEE 1364-2005, 5.2.2). Past the depth it
    /// is 0, where the standard has `x`.
    Cell(MemId, NetId),
}

/// A continuous assignment: the net `target` has the value of the expression at all times
/// (IEEE 1364-2005, 6.1).
#[derive(Clone, Copy, PartialEq, Eq)]
pub struct Assign {
    pub target: NetId,
    pub expr: Expr,
}

/// What an update writes.
#[derive(Clone, Copy, PartialEq, Eq)]
pub enum Target {
    /// A register, by the number of its net.
    Reg(NetId),
    /// The word of a memory at the address that a net has. Past the depth nothing is written.
    Cell(MemId, NetId),
}

/// A nonblocking assignment at each rising edge of the clock where the net `enable` is 1
/// (IEEE 1364-2005, 9.2.2 and 9.4).
///
/// The value of the net `value` is written, as it was before the edge.
#[derive(Clone, Copy, PartialEq, Eq)]
pub struct Update {
    pub enable: NetId,
    pub target: Target,
    pub value: NetId,
}

/// A module within a module (IEEE 1364-2005, 12.1.2).
///
/// `module` is the number of an earlier module of the design. `nets` has one net of the outer module
/// for each port of the inner one, in the order of its ports.
#[derive(Drop)]
pub struct Instance {
    pub module: ModuleId,
    pub name: Text,
    pub nets: List<NetId>,
}

/// A module (IEEE 1364-2005, 12.1). Nets, memories and instances are named by their number from 0.
#[derive(Drop)]
pub struct Module {
    pub name: Text,
    pub ports: List<Port>,
    pub nets: List<Net>,
    pub mems: List<Mem>,
    pub assigns: List<Assign>,
    pub updates: List<Update>,
    pub instances: List<Instance>,
}

/// A design: its modules, each after those that it has instances of. The last one is the top module.
#[derive(Drop)]
pub struct Design {
    pub modules: List<Module>,
}
