// The names of the operations.

/// An operation on the words of streams.
///
/// `Mux` chooses the option whose number its selector is. `Cast` gives a value another type with as
/// many fraction bits or more, and `Round` one with fewer.
#[derive(Clone, Copy, Debug, PartialEq, Eq)]
pub enum Op {
    Add,
    Sub,
    Mul,
    Div,
    Neg,
    And,
    Or,
    Xor,
    Not,
    Shl,
    Shr,
    Eq,
    Ne,
    Lt,
    Le,
    Gt,
    Ge,
    Mux,
    Cast,
    Round,
}
