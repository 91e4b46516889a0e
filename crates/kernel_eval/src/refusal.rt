// The line that a building run says that is refused.
ghost use Rattle.std.specs.Prelude.{◌≡◌, ◌∷◌, [], Some, IfOk, codes};
ghost use Rattle.std.specs.Fmt.{decimal, signed_decimal};
ghost use Rattle.refusal_line.specs.Lines.{refused};
ghost use Rattle.kernel_eval.specs.Lines.{refusal_of, type_words, counter_words};

use counter_chains::CounterError;
use fix_arith::TypeError;
use itoa::Buffer;
use kernel_meaning::EvalError;
use latency_table::operation_name;
use mx_base::{NoMemory, Text};
use refusal_line::{Value, refusal_line};
use std::alloc::Global;

/// The line that is said of a refusal: its code, the place, and of an inner fault its number and its
/// values. `StepLimit` has no place, and want of memory says none.
pub fn line_of(alloc: Global, error: EvalError) -> Result<Vec<u8>, NoMemory>
    ensures { IfOk result (λ line. refusal_of error ≡ Some line.items) }
{
    match error {
        EvalError::UnknownName(at) => place_line(alloc, "E1", at),
        EvalError::WrongKind(at) => place_line(alloc, "E2", at),
        EvalError::Typing(at, fault) => typing_line(alloc, at, fault),
        EvalError::ArrayRange(at) => place_line(alloc, "E4", at),
        EvalError::DivByZero(at) => place_line(alloc, "E5", at),
        EvalError::Unset(at) => place_line(alloc, "E6", at),
        EvalError::StepLimit => refusal_line(alloc, "E7", &[]),
        EvalError::CallDepth(at) => place_line(alloc, "E8", at),
        EvalError::OffsetRange(at, ticks) => signed_line(alloc, "E9", at, 5, ticks),
        EvalError::TextTooLong(at) => place_line(alloc, "E10", at),
        EvalError::BadPortName(at) => place_line(alloc, "E11", at),
        EvalError::PopEmpty(at) => place_line(alloc, "E12", at),
        EvalError::Counter(at, fault) => counter_line(alloc, at, fault),
        EvalError::TypeRange(at) => place_line(alloc, "E14", at),
        EvalError::NameTwice(at) => place_line(alloc, "E15", at),
        EvalError::NoMemory => Err(NoMemory),
    }
}

// The line of a code and a place.
fn place_line(alloc: Global, code: &str, at: u32) -> Result<Vec<u8>, NoMemory>
    ensures { IfOk result (λ line. line.items ≡ refused code.now (decimal at ∷ [])) }
{
    refusal_line(alloc, code, &[Value::Number(at as u64)])
}

// The line of a fault that has a number alone.
fn inner_line(alloc: Global, code: &str, at: u32, inner: u8) -> Result<Vec<u8>, NoMemory>
    ensures { IfOk result (λ line. line.items ≡ refused code.now (decimal at ∷ decimal inner ∷ [])) }
{
    refusal_line(
        alloc,
        code,
        &[Value::Number(at as u64), Value::Number(inner as u64)],
    )
}

// The line of a fault that has a number and a word.
fn word_line(
    alloc: Global,
    code: &str,
    at: u32,
    inner: u8,
    word: &[u8],
) -> Result<Vec<u8>, NoMemory>
    ensures { IfOk result (λ line. line.items ≡ refused code.now (decimal at ∷ decimal inner ∷ word.now ∷ [])) }
{
    let word = Text::from_vec(word.to_vec(alloc)?);
    refusal_line(
        alloc,
        code,
        &[
            Value::Number(at as u64),
            Value::Number(inner as u64),
            Value::Name(&word),
        ],
    )
}

// The line of a fault that has a number and a signed value.
fn signed_line(
    alloc: Global,
    code: &str,
    at: u32,
    inner: u8,
    value: i32,
) -> Result<Vec<u8>, NoMemory>
    ensures { IfOk result (λ line. line.items ≡ refused code.now (decimal at ∷ decimal inner ∷ signed_decimal value ∷ [])) }
{
    let mut digits = Buffer::new();
    word_line(alloc, code, at, inner, digits.format(value).as_bytes())
}

// The line of a fault of types.
fn typing_line(alloc: Global, at: u32, fault: TypeError) -> Result<Vec<u8>, NoMemory>
    ensures { IfOk result (λ line. line.items ≡ refused (codes "E3") (decimal at ∷ type_words fault)) }
{
    match fault {
        TypeError::TypesDiffer => inner_line(alloc, "E3", at, 1),
        TypeError::NotForType(op) => {
            word_line(alloc, "E3", at, 2, operation_name(op).as_bytes())
        }
        TypeError::MulTooWide => inner_line(alloc, "E3", at, 3),
        TypeError::LiteralRange => inner_line(alloc, "E3", at, 4),
        TypeError::ShiftRange(amount) => signed_line(alloc, "E3", at, 5, amount),
        TypeError::MuxCount(options) => count_line(alloc, "E3", at, 6, options as u64),
    }
}

// The line of a fault that has a number and a count.
fn count_line(
    alloc: Global,
    code: &str,
    at: u32,
    inner: u8,
    count: u64,
) -> Result<Vec<u8>, NoMemory>
    ensures { IfOk result (λ line. line.items ≡ refused code.now (decimal at ∷ decimal inner ∷ decimal count ∷ [])) }
{
    refusal_line(
        alloc,
        code,
        &[
            Value::Number(at as u64),
            Value::Number(inner as u64),
            Value::Number(count),
        ],
    )
}

// The line of a fault of a counter.
fn counter_line(alloc: Global, at: u32, fault: CounterError) -> Result<Vec<u8>, NoMemory>
    ensures { IfOk result (λ line. line.items ≡ refused (codes "E13") (decimal at ∷ counter_words fault)) }
{
    match fault {
        CounterError::CounterRange(max, bits) => range_line(alloc, at, max, bits),
        CounterError::IncRange(inc) => signed_line(alloc, "E13", at, 2, inc),
        CounterError::TooWide(bits) => count_line(alloc, "E13", at, 3, bits as u64),
    }
}

// The line of a counter whose number of values is out of range for its bits.
fn range_line(alloc: Global, at: u32, max: i32, bits: u8) -> Result<Vec<u8>, NoMemory>
    ensures { IfOk result (λ line. line.items ≡ refused (codes "E13") (decimal at ∷ decimal 1 ∷ signed_decimal max ∷ decimal bits ∷ [])) }
{
    let mut digits = Buffer::new();
    let max = Text::from_vec(digits.format(max).as_bytes().to_vec(alloc)?);
    refusal_line(
        alloc,
        "E13",
        &[
            Value::Number(at as u64),
            Value::Number(1),
            Value::Name(&max),
            Value::Number(bits as u64),
        ],
    )
}
