// The parts of a line: numbers behind labels, and a kernel's name, counts and bits.
ghost use Rattle.std.specs.Prelude.{◌≡◌, ◌↔◌, IsTrue, ◌^◌, ◌<◌, ◌++◌, ℕ, ℤ, negsuc, List, Some, IfSome, IfNone, decimal};
ghost use Rattle.kernel_calls.specs.Laws.{is_port_name};
ghost use Rattle.schedule_report.specs.Fields.{IsNumber, IsField, IsLast, IsTime, IsHeadLine};

use itoa::Buffer;
use kernel_calls::is_port_name;
use std::str;
use text_scan::{ByteClass, after, split_front};

/// A number, and what follows it.
#[derive(Clone, Copy)]
pub struct Field<'a> {
    pub value: u64,
    pub rest: &'a [u8],
}

/// What a kernel's line says.
#[derive(Clone, Copy)]
pub struct Head<'a> {
    pub name: &'a [u8],
    pub nodes: u32,
    pub edges: u32,
    pub bits: u64,
}

/// The number below the limit at the front of the text, in digits without leading zeros.
fn number(text: &[u8], limit: u64) -> Option<Field<'_>>
    ensures some { IfSome result (λ f. IsNumber text.now limit f.value f.rest.now) }
    ensures none { IfNone result ((value : ℕ) (rest : List ℕ) → IsNumber text.now limit value rest → ⊥) }
{
    let split = split_front(text, ByteClass::Digit);
    match numeral(split.front) {
        Some(value) if value < limit => Some(Field {
            value,
            rest: split.rest,
        }),
        _ => None,
    }
}

/// The number below 2 ^ 64 that is written so, without leading zeros.
fn numeral(digits: &[u8]) -> Option<u64>
    ensures some { IfSome result (λ value. digits.now ≡ decimal value) }
    ensures fits { IfSome result (λ value. value < 2 ^ 64) }
    ensures none { IfNone result ((value : ℕ) → value < 2 ^ 64 → digits.now ≡ decimal value → ⊥) }
{
    match parsed(digits) {
        Some(value) if is_written(value, digits) => Some(value),
        _ => None,
    }
}

/// Whether the number is written so.
fn is_written(value: u64, digits: &[u8]) -> bool
    ensures { IsTrue result ↔ (digits.now ≡ decimal value) }
{
    let mut buffer = Buffer::new();
    digits == buffer.format(value).as_bytes()
}

/// What digits say, if it is below 2 ^ 64.
fn parsed(digits: &[u8]) -> Option<u64>
    ensures { (value : ℕ) → value < 2 ^ 64 → digits.now ≡ decimal value → result ≡ Some value }
{
    match str::from_utf8(digits) {
        Ok(digits) => digits.parse::<u64>().ok(),
        Err(_) => None,
    }
}

/// The number behind a label.
fn number_behind<'a>(text: &'a [u8], label: &[u8], limit: u64) -> Option<Field<'a>>
    ensures some { IfSome result (λ f. IsField text.now label.now limit f.value f.rest.now) }
    ensures none { IfNone result ((value : ℕ) (rest : List ℕ) → IsField text.now label.now limit value rest → ⊥) }
{
    match after(text, label) {
        Some(rest) => number(rest, limit),
        None => None,
    }
}

/// The number behind a label, where nothing follows.
pub fn last(text: &[u8], label: &[u8], limit: u64) -> Option<u64>
    ensures some { IfSome result (λ value. IsLast text.now label.now limit value) }
    ensures none { IfNone result ((value : ℕ) → IsLast text.now label.now limit value → ⊥) }
{
    match number_behind(text, label, limit) {
        Some(found) if found.rest.is_empty() => Some(found.value),
        _ => None,
    }
}

/// The time that the line says, if it is one of -2 ^ 60 to 2 ^ 60.
pub fn time(line: &[u8]) -> Option<i64>
    ensures some { IfSome result (λ time. IsTime line.now time) }
    ensures none { IfNone result ((time : ℤ) → IsTime line.now time → ⊥) }
{
    match last(line, b"time ", 0x1000_0000_0000_0001) {
        Some(value) => Some(value as i64),
        None => negative_time(line),
    }
}

/// The time below 0 that the line says.
fn negative_time(line: &[u8]) -> Option<i64>
    ensures some { IfSome result (λ time. IsTime line.now time) }
    ensures none { IfNone result ((size : ℕ) → IsTime line.now (negsuc size) → ⊥) }
{
    match last(line, b"time -", 0x1000_0000_0000_0001) {
        Some(value) if value > 0 => Some(-(value as i64)),
        _ => None,
    }
}

/// What a kernel's line says.
pub fn head_of(line: &[u8]) -> Option<Head<'_>>
    ensures some { IfSome result (λ h. IsHeadLine line.now h.name.now h.nodes h.edges h.bits) }
    ensures none { IfNone result ((name : List ℕ) (nodes edges bits : ℕ) → IsHeadLine line.now name nodes edges bits → ⊥) }
{
    let text = after(line, b"kernel ")?;
    let split = split_front(text, ByteClass::Word);
    if !is_port_name(split.front) {
        return None;
    }
    let nodes = number_behind(split.rest, b" nodes ", 0x1_0000_0000)?;
    let edges = number_behind(nodes.rest, b" edges ", 0x1_0000_0000)?;
    let bits = last(edges.rest, b" bits ", 0x8000_0000_0000_0000)?;
    Some(Head {
        name: split.front,
        nodes: nodes.value as u32,
        edges: edges.value as u32,
        bits,
    })
}
