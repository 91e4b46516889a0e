// Copies of values, whose texts take memory.
ghost use Rattle.std.specs.Prelude.{◌≡◌, IfOk};

use kernel_meaning::{End, Value};
use mx_base::NoMemory;
use std::alloc::Global;

/// Another value, equal to this one. An array is shared, since its value is its number.
pub fn copy_value(alloc: Global, value: &Value) -> Result<Value, NoMemory>
    ensures { IfOk result (λ other. other ≡ value.now) }
{
    Ok(match value {
        Value::Nothing => Value::Nothing,
        Value::Int(n) => Value::Int(*n),
        Value::Flag(flag) => Value::Flag(*flag),
        Value::Str(text) => Value::Str(text.copy(alloc)?),
        Value::Type(of) => Value::Type(*of),
        Value::Stream { node, of, feed } => Value::Stream {
            node: *node,
            of: *of,
            feed: *feed,
        },
        Value::Chain(node) => Value::Chain(*node),
        Value::Array { number, of } => Value::Array {
            number: *number,
            of: *of,
        },
        Value::Literal {
            negative,
            digits,
            tens,
        } => Value::Literal {
            negative: *negative,
            digits: *digits,
            tens: *tens,
        },
        Value::Parameters => Value::Parameters,
        Value::Engine => Value::Engine,
        Value::Block(number) => Value::Block(*number),
        Value::Link { end, side } => Value::Link {
            end: copy_end(alloc, end)?,
            side: *side,
        },
    })
}

/// Another end, equal to this one.
pub fn copy_end(alloc: Global, end: &End) -> Result<End, NoMemory>
    ensures { IfOk result (λ other. other ≡ end.now) }
{
    match end {
        End::Kernel(number, port) => Ok(End::Kernel(*number, port.copy(alloc)?)),
        End::Cpu(name) => Ok(End::Cpu(name.copy(alloc)?)),
    }
}
