// The lines that are said of refusals.
ghost use Rattle.std.specs.Prelude.{◌≡◌, ◌∷◌, ◌++◌, [], pos, ◌-ℤ◌, map, codes, Some, IfOk, OnOk};
ghost use Rattle.std.specs.Fmt.{decimal, signed_decimal};
ghost use Rattle.refusal_line.specs.Lines.{refused};
ghost use Rattle.latency_table.specs.Names.{name_of};
ghost use Rattle.offset_edges.specs.Refused.{said, line_of_walk, words_of_walk};

use crate::{ClosedWalk, EdgeError};
use itoa::{Buffer, Integer};
use latency_table::operation_name;
use mx_base::{NoMemory, Text};
use mx_bits::Op;
use refusal_line::{Value, refusal_line};
use std::alloc::Global;

impl EdgeError {
    /// The line that is said of the fault of a kernel of this name: its code, the kernel, and the
    /// operation and width, or the walk. Want of memory says none.
    pub fn line(&self, alloc: Global, kernel: &Text) -> Result<Vec<u8>, NoMemory>
        ensures { IfOk result (λ line. said kernel.now self.now ≡ Some line.items) }
    {
        match self {
            EdgeError::NoLatency(op, width) => line_without_latency(alloc, kernel, *op, *width),
            EdgeError::Cycle(walk) => walk.line(alloc, "C1", kernel),
            EdgeError::NoMemory => Err(NoMemory),
        }
    }
}

// The line of an operation that has no latency at a width.
fn line_without_latency(
    alloc: Global,
    kernel: &Text,
    op: Op,
    width: u8,
) -> Result<Vec<u8>, NoMemory>
    ensures { IfOk result (λ line. line.items
        ≡ refused (codes "L1") (kernel.now ∷ name_of op ∷ decimal width ∷ [])) }
{
    let mut words = Vec::new(alloc);
    words.push(word(alloc, kernel.as_bytes())?)?;
    words.push(word(alloc, operation_name(op).as_bytes())?)?;
    words.push(number(alloc, width)?)?;
    refusal_line(alloc, "L1", &[Value::Names(words.as_slice())])
}

impl ClosedWalk {
    /// The line of a refusal of this code that shows the walk of a kernel of this name: the kernel,
    /// `latency` and the sum, `back` and how many ticks it looks back, `nodes` and these.
    pub fn line(&self, alloc: Global, code: &str, kernel: &Text) -> Result<Vec<u8>, NoMemory>
        ensures { IfOk result (λ line. line.items ≡ line_of_walk code.now kernel.now self.now) }
    {
        let words = words_of(alloc, kernel, self)?;
        refusal_line(alloc, code, &[Value::Names(words.as_slice())])
    }
}

// The words that say a walk of a kernel.
fn words_of(alloc: Global, kernel: &Text, walk: &ClosedWalk) -> Result<Vec<Text>, NoMemory>
    ensures { IfOk result (λ words. words.items ≡ kernel.now ∷ words_of_walk walk.now) }
{
    let mut words = Vec::new(alloc);
    words.push(word(alloc, kernel.as_bytes())?)?;
    words.push(word(alloc, b"latency")?)?;
    words.push(number(alloc, walk.latency)?)?;
    words.push(word(alloc, b"back")?)?;
    words.push(ticks_back(alloc, walk.offset)?)?;
    words.push(word(alloc, b"nodes")?)?;
    push_numbers(alloc, &mut words, walk.nodes.as_slice())?;
    Ok(words)
}

// How many ticks a sum of offsets looks back, in decimal digits.
fn ticks_back(alloc: Global, offset: i64) -> Result<Text, NoMemory>
    ensures { IfOk result (λ text. text ≡ signed_decimal (pos 0 -ℤ offset)) }
{
    number(alloc, -i128::from(offset))
}

fn word(alloc: Global, bytes: &[u8]) -> Result<Text, NoMemory>
    ensures { IfOk result (λ text. text ≡ bytes.now) }
{
    Ok(Text::from_vec(bytes.to_vec(alloc)?))
}

// A number in decimal digits.
fn number<I: Integer>(alloc: Global, number: I) -> Result<Text, NoMemory>
    ensures { IfOk result (λ text. text ≡ I.text number) }
{
    let mut digits = Buffer::new();
    word(alloc, digits.format(number).as_bytes())
}

// Adds each number in decimal digits.
fn push_numbers(alloc: Global, words: &mut Vec<Text>, numbers: &[u32]) -> Result<(), NoMemory>
    ensures { OnOk result (words.new.items ≡ words.old.items ++ map decimal numbers.now) }
{
    for n in numbers {
        words.push(number(alloc, *n)?)?;
    }
    Ok(())
}
