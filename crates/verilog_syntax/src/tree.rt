// The tree of a text.

use mx_base::List;
use mx_bits::Word;
use rtl_ir::Sign;

/// A port: its width in bits, from 1 to 128, and its name (IEEE 1364-2005, 12.3.4).
#[derive(Clone, Copy)]
pub enum PortTree<'a> {
    Input(u8, &'a [u8]),
    Output(u8, &'a [u8]),
}

/// The right side of an assignment, by the names of its operands.
#[derive(Clone, Copy)]
pub enum ExprTree<'a> {
    Plain(&'a [u8]),
    /// A number with its width (IEEE 1364-2005, 3.5.1).
    Literal(Word),
    Not(&'a [u8]),
    Binary(Sign, &'a [u8], &'a [u8]),
    /// The high part, and the low part.
    Concat(&'a [u8], &'a [u8]),
    /// How often, at most 128 times.
    Repeat(u8, &'a [u8]),
    /// A net, its highest bit that is taken, and its lowest one, each at most 128.
    Part(&'a [u8], u8, u8),
    /// The condition, the value at 1, and the value at 0.
    Choose(&'a [u8], &'a [u8], &'a [u8]),
    /// A memory, and the address.
    Cell(&'a [u8], &'a [u8]),
}

/// An update of a register or of a memory's word.
#[derive(Clone, Copy)]
pub enum UpdateTree<'a> {
    /// The enable, the register, and the value.
    Register(&'a [u8], &'a [u8], &'a [u8]),
    /// The enable, the memory, the address, and the value.
    Cell(&'a [u8], &'a [u8], &'a [u8], &'a [u8]),
}

/// A port of an instance, and the net that it is joined to.
#[derive(Clone, Copy)]
pub struct Connection<'a> {
    pub port: &'a [u8],
    pub net: &'a [u8],
}

/// An item of a module.
#[derive(Drop)]
pub enum ItemTree<'a> {
    /// The width in bits, and the name.
    Wire(u8, &'a [u8]),
    Register(u8, &'a [u8]),
    /// The width of its words, the name, and the number of words, from 1 to 2^28.
    Memory(u8, &'a [u8], u32),
    Assign(&'a [u8], ExprTree<'a>),
    Always(List<UpdateTree<'a>>),
    /// The module, the name of the instance, and what its ports are joined to.
    Instance(&'a [u8], &'a [u8], List<Connection<'a>>),
}

/// A module of a text.
#[derive(Drop)]
pub struct ModuleTree<'a> {
    pub name: &'a [u8],
    pub ports: List<PortTree<'a>>,
    pub items: List<ItemTree<'a>>,
}
