// The names of the operations.
ghost use Rattle.std.specs.Prelude.{◌≡◌, true, map};
ghost use Rattle.latency_table.specs.Names.{name_of, names_operation, operations, are_in_byte_order};

use mx_bits::Op;

/// The operations whose latencies a table says, in the byte order of their names. The others, `Shl`,
/// `Shr` and `Cast`, have latency 0.
pub(crate) const OPERATIONS: [Op; 17] = [
    Op::Add,
    Op::And,
    Op::Div,
    Op::Eq,
    Op::Ge,
    Op::Gt,
    Op::Le,
    Op::Lt,
    Op::Mul,
    Op::Mux,
    Op::Ne,
    Op::Neg,
    Op::Not,
    Op::Or,
    Op::Round,
    Op::Sub,
    Op::Xor,
];

/// The name of an operation, as tables and refusals have it.
pub fn operation_name(op: Op) -> &'static str
    ensures { result.now ≡ name_of op }
{
    match op {
        Op::Add => "add",
        Op::Sub => "sub",
        Op::Mul => "mul",
        Op::Div => "div",
        Op::Neg => "neg",
        Op::And => "and",
        Op::Or => "or",
        Op::Xor => "xor",
        Op::Not => "not",
        Op::Shl => "shl",
        Op::Shr => "shr",
        Op::Eq => "eq",
        Op::Ne => "ne",
        Op::Lt => "lt",
        Op::Le => "le",
        Op::Gt => "gt",
        Op::Ge => "ge",
        Op::Mux => "mux",
        Op::Cast => "cast",
        Op::Round => "round",
    }
}

/// Whether a key of a table names one of its operations.
pub(crate) fn names_operation(key: &str) -> bool
    ensures { result ≡ names_operation key.now }
{
    OPERATIONS.iter().any(|op| operation_name(*op) == key)
}

/// A law: the list of operations by which faults are looked for is in the byte order of their names.
pub fn byte_order()
    ensures { are_in_byte_order (map name_of operations) ≡ true }
{}
