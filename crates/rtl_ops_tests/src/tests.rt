// Operations at words, by the values of the wires that are added for them.
ghost use Rattle.std.specs.Prelude.{◌≡◌, ◌≢◌, ◌≤◌, [], ◌∷◌, false, IfOk, OnOk};
ghost use Rattle.fix_arith.specs.Types.{width_of, HasWidth};
ghost use Rattle.fix_arith.specs.Table.{GivesType};
ghost use Rattle.rtl_ir.specs.Value.{width_of as net_width};
ghost use Rattle.rtl_build.specs.Wires.{AreInner};
ghost use Rattle.rtl_build.specs.Ports.{with_port};

use fix_arith::{RoundMode, StreamType};
use mx_base::{NoMemory, Text};
use mx_bits::{Op, Word};
use rtl_build::Netlist;
use rtl_ir::{Expr, Module, NetId, Sign};
use rtl_ops::fragment;
use std::alloc::Global;
use std::test::Fail;

fn operand(alloc: Global, netlist: &mut Netlist, name: &[u8], width: u8) -> Result<(), NoMemory>
    requires some { 1 ≤ width }
    requires at_most { width ≤ 128 }
    ensures { OnOk result (netlist.new ≡ with_port netlist.old name.now width false) }
{
    netlist.input(Text::from_vec(name.to_vec(alloc)?), width)?;
    Ok(())
}

// Adds three inputs for operands, a0, a1 and a2.
fn add_operands(alloc: Global, netlist: &mut Netlist, first: u8, others: u8) -> Result<(), NoMemory>
    requires some { 1 ≤ first }
    requires at_most { first ≤ 128 }
    requires some_others { 1 ≤ others }
    requires at_most_others { others ≤ 128 }
    ensures { OnOk result (netlist.new ≡
        with_port (with_port (with_port netlist.old (97 ∷ 48 ∷ []) first false)
        (97 ∷ 49 ∷ []) others false) (97 ∷ 50 ∷ []) others false) }
{
    operand(alloc, netlist, b"a0", first)?;
    operand(alloc, netlist, b"a1", others)?;
    operand(alloc, netlist, b"a2", others)?;
    Ok(())
}

// A module of three inputs for operands.
fn operands(alloc: Global, first: u8, others: u8) -> Result<Netlist, NoMemory>
    requires some { 1 ≤ first }
    requires at_most { first ≤ 128 }
    requires some_others { 1 ≤ others }
    requires at_most_others { others ≤ 128 }
    ensures first { IfOk result (λ m. net_width m 0 ≡ first) }
    ensures second { IfOk result (λ m. net_width m 1 ≡ others) }
    ensures third { IfOk result (λ m. net_width m 2 ≡ others) }
    ensures inner { IfOk result (λ m. AreInner m.ports (0 ∷ 1 ∷ 2 ∷ [])) }
{
    let mut netlist = Netlist::new(alloc, Text::from_vec(b"m".to_vec(alloc)?));
    add_operands(alloc, &mut netlist, first, others)?;
    Ok(netlist)
}

fn at(values: &[Word], net: NetId) -> Result<Word, Fail> {
    Ok(*values.get(net.index()).ok_or("no such net")?)
}

fn combined(sign: Sign, a: Word, b: Word) -> Result<Word, Fail> {
    if a.width() != b.width() {
        return Err("widths differ".into());
    }
    Ok(match sign {
        Sign::Add => a.add(b),
        Sign::Sub => a.sub(b),
        Sign::Mul => a.mul(b),
        Sign::Div if b.bits() == 0 => b,
        Sign::Div => a.div(b),
        Sign::And => a.and(b),
        Sign::Or => a.or(b),
        Sign::Xor => a.xor(b),
        Sign::Eq => a.eq(b),
        Sign::Lt => a.lt(b),
    })
}

// The value of an expression over the nets before it.
fn evaluated(expr: Expr, values: &[Word]) -> Result<Word, Fail> {
    Ok(match expr {
        Expr::Net(net) => at(values, net)?,
        Expr::Literal(word) => word,
        Expr::Not(net) => at(values, net)?.not(),
        Expr::Binary(sign, a, b) => combined(sign, at(values, a)?, at(values, b)?)?,
        Expr::Concat(high, low) => {
            let (high, low) = (at(values, high)?, at(values, low)?);
            if 128 - high.width() < low.width() {
                return Err("too wide".into());
            }
            high.concat(low)
        }
        Expr::Repeat(times, net) => {
            let word = at(values, net)?;
            if times == 0 || word.width() != 1 || 128 < times {
                return Err("no repetition of a bit".into());
            }
            word.repeat(times)
        }
        Expr::Part(net, hi, lo) => {
            let word = at(values, net)?;
            if hi < lo || word.width() <= hi {
                return Err("no such part".into());
            }
            word.part(hi, lo)
        }
        Expr::Choose(condition, yes, no) => {
            let chosen = if at(values, condition)?.bits() == 1 {
                yes
            } else {
                no
            };
            at(values, chosen)?
        }
        Expr::Cell(..) => return Err("no memory".into()),
    })
}

// The value of a net, where the first nets have these words.
fn value(alloc: Global, module: &Module, words: &[Word], net: NetId) -> Result<u128, Fail> {
    let mut values = words.to_vec(alloc)?;
    for assign in module.assigns.as_slice() {
        if assign.target.index() != values.len() {
            return Err("not the next net".into());
        }
        values.push(evaluated(assign.expr, &values)?)?;
    }
    Ok(at(&values, net)?.bits())
}

fn of_two(
    alloc: Global,
    op: Op,
    mode: RoundMode,
    t: StreamType,
    a: u128,
    b: u128,
    out: StreamType,
) -> Result<u128, Fail>
    requires word_type { HasWidth t }
    requires out { HasWidth out }
    requires gives { GivesType op (t ∷ t ∷ []) 0 out }
{
    let width = t.width();
    let words = [word(a, width)?, word(b, width)?, word(0, width)?];
    let nets = [NetId::new(0), NetId::new(1)];
    let mut netlist = operands(alloc, width, width)?;
    let made = fragment(&mut netlist, op, mode, &[t, t], &nets, 0, out)?;
    value(alloc, netlist.module(), &words, made.net())
}

fn of_one(
    alloc: Global,
    op: Op,
    mode: RoundMode,
    t: StreamType,
    a: u128,
    amount: u8,
    out: StreamType,
) -> Result<u128, Fail>
    requires word_type { HasWidth t }
    requires out { HasWidth out }
    requires gives { GivesType op (t ∷ []) amount out }
{
    let width = t.width();
    let words = [word(a, width)?, word(0, 1)?, word(0, 1)?];
    let nets = [NetId::new(0)];
    let mut netlist = operands(alloc, width, 1)?;
    let made = fragment(&mut netlist, op, mode, &[t], &nets, amount, out)?;
    value(alloc, netlist.module(), &words, made.net())
}

fn word(bits: u128, width: u8) -> Result<Word, Fail>
    requires some { 1 ≤ width }
    requires at_most { width ≤ 128 }
    ensures { IfOk result (λ w. w.width ≡ width) }
{
    if width < 128 && bits >> width != 0 {
        return Err("too wide".into());
    }
    Ok(Word::new(bits, width))
}

// The three modes, one after another, of a cast.
fn cast_by_modes(
    alloc: Global,
    from: StreamType,
    a: u128,
    to: StreamType,
) -> Result<[u128; 3], Fail>
    requires from { HasWidth from }
    requires to { HasWidth to }
    requires numbers { to ≢ StreamType.Bool }
{
    Ok([
        of_one(alloc, Op::Round, RoundMode::Truncate, from, a, 0, to)?,
        of_one(alloc, Op::Round, RoundMode::ToNear, from, a, 0, to)?,
        of_one(alloc, Op::Round, RoundMode::ToNearEven, from, a, 0, to)?,
    ])
}

fn product_by_modes(alloc: Global, t: StreamType, a: u128, b: u128) -> Result<[u128; 3], Fail>
    requires word_type { HasWidth t }
    requires gives { GivesType Op.Mul (t ∷ t ∷ []) 0 t }
{
    Ok([
        of_two(alloc, Op::Mul, RoundMode::Truncate, t, a, b, t)?,
        of_two(alloc, Op::Mul, RoundMode::ToNear, t, a, b, t)?,
        of_two(alloc, Op::Mul, RoundMode::ToNearEven, t, a, b, t)?,
    ])
}

// The option of two that a selector of one bit chooses.
fn chosen(alloc: Global, selector: u128) -> Result<u128, Fail> {
    let t = StreamType::Int(8);
    let types = [StreamType::UInt(1), t, t];
    let words = [word(selector, 1)?, word(0x11, 8)?, word(0x22, 8)?];
    let mut netlist = operands(alloc, 1, 8)?;
    let nets = [NetId::new(0), NetId::new(1), NetId::new(2)];
    let made = fragment(
        &mut netlist,
        Op::Mux,
        RoundMode::Truncate,
        &types,
        &nets,
        0,
        t,
    )?;
    value(alloc, netlist.module(), &words, made.net())
}

fn fix(whole: u8, frac: u8, signed: bool) -> StreamType
    ensures { result ≡ StreamType.Fix whole frac signed }
{
    StreamType::Fix {
        whole,
        frac,
        signed,
    }
}

// Sum, difference, product, quotient, and, or, exclusive or.
fn of_unsigned(alloc: Global, a: u128, b: u128) -> Result<[u128; 7], Fail> {
    let (t, mode) = (StreamType::UInt(8), RoundMode::Truncate);
    Ok([
        of_two(alloc, Op::Add, mode, t, a, b, t)?,
        of_two(alloc, Op::Sub, mode, t, a, b, t)?,
        of_two(alloc, Op::Mul, mode, t, a, b, t)?,
        of_two(alloc, Op::Div, mode, t, a, b, t)?,
        of_two(alloc, Op::And, mode, t, a, b, t)?,
        of_two(alloc, Op::Or, mode, t, a, b, t)?,
        of_two(alloc, Op::Xor, mode, t, a, b, t)?,
    ])
}

// Equal, unequal, less, at most, greater, at least.
fn order_of_signed(alloc: Global, a: u128, b: u128) -> Result<[u128; 6], Fail> {
    let (t, mode, bit) = (StreamType::Int(8), RoundMode::Truncate, StreamType::Bool);
    Ok([
        of_two(alloc, Op::Eq, mode, t, a, b, bit)?,
        of_two(alloc, Op::Ne, mode, t, a, b, bit)?,
        of_two(alloc, Op::Lt, mode, t, a, b, bit)?,
        of_two(alloc, Op::Le, mode, t, a, b, bit)?,
        of_two(alloc, Op::Gt, mode, t, a, b, bit)?,
        of_two(alloc, Op::Ge, mode, t, a, b, bit)?,
    ])
}

fn quotient_of_signed(alloc: Global, a: u128, b: u128) -> Result<u128, Fail> {
    let t = StreamType::Int(8);
    of_two(alloc, Op::Div, RoundMode::Truncate, t, a, b, t)
}

// Opposite, turned, shifted left and right.
fn of_one_signed(alloc: Global, a: u128, bits: u8) -> Result<[u128; 4], Fail>
    requires { bits ≤ 127 }
{
    let (t, mode) = (StreamType::Int(8), RoundMode::Truncate);
    Ok([
        of_one(alloc, Op::Neg, mode, t, a, 0, t)?,
        of_one(alloc, Op::Not, mode, t, a, 0, t)?,
        of_one(alloc, Op::Shl, mode, t, a, bits, t)?,
        of_one(alloc, Op::Shr, mode, t, a, bits, t)?,
    ])
}

fn to_bool(alloc: Global, bit: u128) -> Result<u128, Fail> {
    of_one(
        alloc,
        Op::Cast,
        RoundMode::Truncate,
        StreamType::Int(1),
        bit,
        0,
        StreamType::Bool,
    )
}

#[test]
fn whole_numbers_follow_the_table(rt: HostRuntime) -> Result<(), Fail> {
    let alloc = rt.alloc();
    let unsigned = [0xb1, 0x47, 0xac, 0x2, 0x34, 0x7d, 0x49];
    assert!(rt; of_unsigned(alloc, 0x7c, 0x35)? == unsigned);
    assert!(rt; order_of_signed(alloc, 0x80, 0x7f)? == [0, 1, 1, 1, 0, 0]);
    assert!(rt; order_of_signed(alloc, 0x7f, 0x80)? == [0, 1, 0, 0, 1, 1]);
    assert!(rt; order_of_signed(alloc, 0x80, 0x80)? == [1, 0, 0, 1, 0, 1]);
    for (a, b, want) in [
        (0xf9, 0x02, 0xfd),
        (0x07, 0xfe, 0xfd),
        (0xf9, 0xfe, 0x03),
        (0x80, 0xff, 0x80),
    ] {
        assert!(rt; quotient_of_signed(alloc, a, b)? == want, "{a} / {b}");
    }
    assert!(rt; of_one_signed(alloc, 0x81, 0)? == [0x7f, 0x7e, 0x81, 0x81]);
    assert!(rt; of_one_signed(alloc, 0x81, 1)? == [0x7f, 0x7e, 0x02, 0xc0]);
    assert!(rt; of_one_signed(alloc, 0x81, 127)? == [0x7f, 0x7e, 0x00, 0xff]);
    assert!(rt; [to_bool(alloc, 0)?, to_bool(alloc, 1)?] == [0, 1]);
    assert!(rt; [chosen(alloc, 0)?, chosen(alloc, 1)?] == [0x11, 0x22]);
    Ok(())
}

// 5/2, 7/2 and -5/2 become whole numbers.
fn halves(alloc: Global) -> Result<[[u128; 3]; 3], Fail> {
    let (from, to) = (fix(4, 4, true), fix(4, 0, true));
    Ok([
        cast_by_modes(alloc, from, 0x28, to)?,
        cast_by_modes(alloc, from, 0x38, to)?,
        cast_by_modes(alloc, from, 0xd8, to)?,
    ])
}

// All bits are dropped, or as many as there can be come to them.
fn far_casts(alloc: Global) -> Result<[[u128; 3]; 2], Fail> {
    let all = fix(0, 128, false);
    Ok([
        cast_by_modes(alloc, all, 1 << 127, StreamType::UInt(8))?,
        cast_by_modes(alloc, fix(4, 4, true), 0xff, all)?,
    ])
}

// -1/32, and 31/16 times 31/2.
fn products(alloc: Global) -> Result<[[u128; 3]; 2], Fail> {
    Ok([
        product_by_modes(alloc, fix(4, 4, true), 0x08, 0xff)?,
        product_by_modes(alloc, fix(4, 4, false), 0x1f, 0xf8)?,
    ])
}

#[test]
fn numbers_are_rounded_by_the_mode(rt: HostRuntime) -> Result<(), Fail> {
    let alloc = rt.alloc();
    assert!(rt; halves(alloc)? == [[0x2, 0x3, 0x2], [0x3, 0x4, 0x4], [0xd, 0xe, 0xe]]);
    assert!(rt; far_casts(alloc)? == [[0, 1, 0], [0xf0 << 120; 3]]);
    assert!(rt; products(alloc)? == [[0xff, 0, 0], [0xe0, 0xe1, 0xe0]]);
    Ok(())
}
