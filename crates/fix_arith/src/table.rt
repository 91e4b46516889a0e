// The operations on words.
ghost use Rattle.std.specs.Prelude.{◌≡◌, ◌≤◌, ◌<◌, ◌^◌, All, IfSome, IsTrue, map, slice_get, if◌then◌else◌, ◌==◌, int_div};
ghost use Rattle.std.specs.Option.{option_map};
ghost use Rattle.std.specs.Ordering.{int_cmp};
ghost use Rattle.fix_arith.specs.Types.{width_of, HasWidth};
ghost use Rattle.fix_arith.specs.Typing.{is_fix};
ghost use Rattle.fix_arith.specs.Values.{value_of, reduced};
ghost use Rattle.fix_arith.specs.Table.{applied, product_of, bit_of, bits_of, widths_of};
ghost use Rattle.fix_arith.specs.Table.{test_of, GivesType};

use crate::casting::cast;
use crate::integer::Integer;
use crate::round::rounded;
use crate::{RoundMode, StreamType};
use mx_bits::{Op, Word};
use std::cmp::Ordering;

/// The word that an operation gives, or `None` where it's undefined: exactly at a divisor of 0, and at
/// a selector that no option has as its number.
///
/// The words have the types' widths. `amount` is the number of bits of a shift. `out` is the type of
/// the result, which for `Cast` and `Round` is the one that is cast to.
#[tactic(auto, using(crate::proofs::Residues::word_rows))]
pub fn apply(
    op: Op,
    mode: RoundMode,
    types: &[StreamType],
    args: &[Word],
    amount: u8,
    out: StreamType,
) -> Option<Word>
    requires types { All HasWidth types.now }
    requires out { HasWidth out }
    requires words { widths_of args.now ≡ map width_of types.now }
    requires gives { GivesType op types.now amount out }
    ensures bits { option_map (λ w. w.bits) result ≡ applied op mode types.now (bits_of args.now) amount out }
    ensures width { IfSome result (λ w. w.width ≡ width_of out) }
{
    let (t, a) = (types[0], args[0]);
    Some(match op {
        Op::Mux => return chosen(a, &args[1..]),
        Op::Cast | Op::Round => cast(a, t, out, mode),
        Op::Neg => Word::new(0, a.width()).sub(a),
        Op::Not => a.not(),
        Op::Shl => Integer::of_word(a, t).shifted_left(amount, a.width()),
        Op::Shr => Integer::of_word(a, t)
            .shifted_right(amount)
            .reduced(a.width()),
        Op::Add => a.add(args[1]),
        Op::Sub => a.sub(args[1]),
        Op::Mul => product(a, args[1], t, mode),
        Op::Div => return quotient(a, args[1], t),
        Op::And => a.and(args[1]),
        Op::Or => a.or(args[1]),
        Op::Xor => a.xor(args[1]),
        Op::Eq | Op::Ne | Op::Lt | Op::Le | Op::Gt | Op::Ge => {
            bit(holds(op, order(a, args[1], t)))
        }
    })
}

// The option that the selector numbers from 0.
fn chosen(selector: Word, options: &[Word]) -> Option<Word>
    ensures { result ≡ slice_get options.now selector.bits }
{
    if selector.bits() < options.len() as u128 {
        Some(options[selector.bits() as usize])
    } else {
        None
    }
}

// The product of two words of a type.
#[tactic(auto, using(crate::proofs::Residues::word_rows, crate::proofs::Products::products))]
fn product(a: Word, b: Word, t: StreamType, mode: RoundMode) -> Word
    requires word_type { HasWidth t }
    requires first { a.width ≡ width_of t }
    requires second { b.width ≡ width_of t }
    requires narrow { IsTrue (is_fix t) → width_of t ≤ 64 }
    ensures bits { result.bits ≡ reduced (width_of t) (product_of mode t (value_of t a.bits) (value_of t b.bits)) }
    ensures width { result.width ≡ width_of t }
{
    match t {
        StreamType::Fix { frac, .. } => {
            let exact = Integer::of_word(a, t).times(Integer::of_word(b, t));
            rounded(exact, frac, mode).reduced(a.width())
        }
        _ => a.mul(b),
    }
}

// The quotient of two words of a type, rounded toward zero, where the divisor isn't 0.
#[tactic(auto, using(crate::proofs::Words::some_value, crate::proofs::Products::within))]
fn quotient(a: Word, b: Word, t: StreamType) -> Option<Word>
    requires word_type { HasWidth t }
    requires first { a.width ≡ width_of t }
    requires second { b.width ≡ width_of t }
    ensures bits { option_map (λ w. w.bits) result ≡ (if b.bits == 0 then None else Some
        (reduced (width_of t) (int_div (value_of t a.bits) (value_of t b.bits)))) }
    ensures width { IfSome result (λ w. w.width ≡ width_of t) }
{
    if b.bits() == 0 {
        return None;
    }
    let exact = Integer::of_word(a, t).over(Integer::of_word(b, t));
    Some(exact.reduced(a.width()))
}

// How the numbers of two words of a type compare.
fn order(a: Word, b: Word, t: StreamType) -> Ordering
    requires word_type { HasWidth t }
    requires first { a.width ≡ width_of t }
    requires second { b.width ≡ width_of t }
    ensures { result ≡ int_cmp (value_of t a.bits) (value_of t b.bits) }
{
    Integer::of_word(a, t).compare(Integer::of_word(b, t))
}

// Whether a comparison holds of operands that compare so.
fn holds(op: Op, order: Ordering) -> bool
    ensures { result ≡ test_of op order }
{
    match op {
        Op::Eq => order.is_eq(),
        Op::Ne => order.is_ne(),
        Op::Lt => order.is_lt(),
        Op::Le => order.is_le(),
        Op::Gt => order.is_gt(),
        Op::Ge => order.is_ge(),
        _ => false,
    }
}

// One bit: 1 where the test holds.
fn bit(test: bool) -> Word
    ensures bits { result.bits ≡ bit_of test }
    ensures width { result.width ≡ 1 }
{
    Word::new(test as u128, 1)
}
