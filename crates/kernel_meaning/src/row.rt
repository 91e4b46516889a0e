// What is done with the values of an expression's operands.
use crate::{Declared, Value};
use fix_arith::RoundMode;
use mx_base::Text;

/// The operator between two operands, other than `&&` and `||`.
#[derive(Clone, Copy, PartialEq, Eq)]
pub enum Sign {
    Add,
    Subtract,
    Multiply,
    Divide,
    /// `%`, of numbers alone.
    Remainder,
    And,
    Or,
    Xor,
    ShiftLeft,
    ShiftRight,
    Less,
    LessEqual,
    Greater,
    GreaterEqual,
    /// `==` and `!=`, of two numbers or two booleans.
    Equal,
    NotEqual,
    /// `===` and `!==`, where one operand is a stream.
    StreamEqual,
    StreamNotEqual,
}

/// What is done with the values of an expression's operands.
#[derive(Drop)]
pub enum Row {
    /// The value is known before.
    Gives(Value),
    /// A method of the own class is called.
    OwnMethod(Text),
    Binary(Sign),
    /// The prefixes `-`, `~` and `!`.
    Negate,
    Complement,
    Not,
    /// `-2147483648`, whose digits are no number of 32 bits.
    LeastInt,
    Element,
    Length,
    /// New arrays, with elements of this type.
    NewArray(Declared),
    UIntType,
    IntType,
    /// Whether the type is signed.
    FixType(bool),
    /// The arguments aren't those of the call, whichever values they have.
    WrongArguments,
    NewInstance,
    Cast,
    AddCounter,
    Input,
    Output,
    ScalarInput,
    ConstantVar,
    Offset,
    /// A selector and options.
    Mux,
    /// `?:` by a stream: the condition, what is chosen at 1, and what is chosen at 0.
    Choose,
    SimpleCounter,
    MakeCounterChain,
    StreamHold,
    PushRounding(RoundMode),
    PopRounding,
    /// `left <== right`.
    Connect,
    /// In a manager: a stream from the CPU, and one to it.
    StreamFromCpu,
    StreamToCpu,
    /// In a manager: an input and an output of a kernel.
    KernelInput,
    KernelOutput,
}
