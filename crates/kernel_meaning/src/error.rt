// Why a building run stops.
ghost use Rattle.std.specs.Prelude.{◌≡◌};

use counter_chains::CounterError;
use fix_arith::TypeError;
use mx_base::NoMemory;
use std::alloc::AllocError;

/// Why a building run stops, each with the place of the production.
#[derive(Clone, Copy, Debug, PartialEq, Eq)]
pub enum EvalError {
    /// No memory was left.
    NoMemory,
    /// A name, method or path without meaning, or a wrong number of arguments.
    UnknownName(u32),
    /// A value of another kind than the construct takes.
    WrongKind(u32),
    /// A rule of the types of streams is broken.
    Typing(u32, TypeError),
    /// The size of an array, or an index, is out of range.
    ArrayRange(u32),
    /// A quotient of whole numbers by 0.
    DivByZero(u32),
    /// What isn't set is read.
    Unset(u32),
    /// There are too many steps.
    StepLimit,
    /// A call stands too deep.
    CallDepth(u32),
    /// An offset of so much.
    OffsetRange(u32, i32),
    /// A string of more than 64 bytes.
    TextTooLong(u32),
    /// A port's name isn't a letter followed by letters, digits and `_`.
    BadPortName(u32),
    /// A rounding mode is taken back that wasn't set.
    PopEmpty(u32),
    /// There is no such counter.
    Counter(u32, CounterError),
    /// The width of a type is out of range.
    TypeRange(u32),
    /// A name is declared twice.
    NameTwice(u32),
}

impl From<NoMemory> for EvalError {
    ghost from_gives = { λ _ e. e ≡ NoMemory };

    ghost use Rattle.kernel_meaning.specs.declared.error.EvalError.TheVariants.{NoMemory};

    fn from(_: NoMemory) -> Self {
        EvalError::NoMemory
    }
}

impl From<AllocError> for EvalError {
    ghost from_gives = { λ _ e. e ≡ NoMemory };

    ghost use Rattle.kernel_meaning.specs.declared.error.EvalError.TheVariants.{NoMemory};

    fn from(_: AllocError) -> Self {
        EvalError::NoMemory
    }
}
