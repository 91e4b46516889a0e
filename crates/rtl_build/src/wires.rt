// Wires by what they are made of.
ghost use Rattle.std.specs.Prelude.{◌≡◌, ◌+◌, ◌-◌, ◌*◌, ◌/◌, ◌%◌, ◌≤◌, ◌<◌, ◌^◌, ◌==◌, if◌then◌else◌, IfOk};
ghost use Rattle.rtl_ir.specs.Value.{combined, repeated};
ghost use Rattle.rtl_build.specs.Signals.{HasSignal, Makes, sign_width};

use crate::netlist::Netlist;
use crate::signal::Signal;
use mx_base::NoMemory;
use mx_bits::Word;
use rtl_ir::{Expr, Sign};

// The width of an operator's result, by that of its operands.
fn sign_width(sign: Sign, width: u8) -> u8
    ensures { result ≡ sign_width sign width }
{
    match sign {
        Sign::Eq | Sign::Lt => 1,
        _ => width,
    }
}

impl Netlist {
    /// A wire with this number (IEEE 1364-2005, 3.5.1).
    pub fn literal(&mut self, word: Word) -> Result<Signal, NoMemory>
        ensures { IfOk result (Makes self.old self.new 1 word.width (λ v. word.bits)) }
    {
        self.wire(word.width(), Expr::Literal(word))
    }

    /// Each bit turned (IEEE 1364-2005, 5.1.10).
    pub fn not(&mut self, a: Signal) -> Result<Signal, NoMemory>
        requires { HasSignal self.old a }
        ensures { IfOk result (Makes self.old self.new 1 a.width (λ v. 2 ^ a.width - 1 - v a.net)) }
    {
        self.wire(a.width, Expr::Not(a.net()))
    }

    /// An operator of two operands of one width. The result has that width, and 1 bit where the operator
    /// compares.
    pub fn binary(&mut self, sign: Sign, a: Signal, b: Signal) -> Result<Signal, NoMemory>
        requires a { HasSignal self.old a }
        requires b { HasSignal self.old b }
        requires same { b.width ≡ a.width }
        ensures { IfOk result (Makes self.old self.new 1 (sign_width sign a.width)
            (λ v. combined sign (sign_width sign a.width) (v a.net) (v b.net))) }
    {
        self.wire(
            sign_width(sign, a.width),
            Expr::Binary(sign, a.net(), b.net()),
        )
    }

    /// One word above another one, together of at most 128 bits (IEEE 1364-2005, 5.1.14).
    pub fn concat(&mut self, high: Signal, low: Signal) -> Result<Signal, NoMemory>
        requires high { HasSignal self.old high }
        requires low { HasSignal self.old low }
        requires width { high.width + low.width ≤ 128 }
        ensures { IfOk result (Makes self.old self.new 1 (high.width + low.width)
            (λ v. v high.net * 2 ^ low.width + v low.net)) }
    {
        self.wire(high.width + low.width, Expr::Concat(high.net(), low.net()))
    }

    /// One bit so many times, 1 to 128 (IEEE 1364-2005, 5.1.14).
    pub fn repeat(&mut self, times: u8, bit: Signal) -> Result<Signal, NoMemory>
        requires bit { HasSignal self.old bit }
        requires one { bit.width ≡ 1 }
        requires some { 1 ≤ times }
        requires at_most { times ≤ 128 }
        ensures { IfOk result (Makes self.old self.new 1 times (λ v. repeated times 1 (v bit.net))) }
    {
        self.wire(times, Expr::Repeat(times, bit.net()))
    }

    /// The bits from number `hi` down to number `lo` (IEEE 1364-2005, 5.2.1).
    pub fn part(&mut self, a: Signal, hi: u8, lo: u8) -> Result<Signal, NoMemory>
        requires a { HasSignal self.old a }
        requires order { lo ≤ hi }
        requires within { hi < a.width }
        ensures { IfOk result (Makes self.old self.new 1 (hi + 1 - lo)
            (λ v. (v a.net / 2 ^ lo) % 2 ^ (hi + 1 - lo))) }
    {
        self.wire(hi + 1 - lo, Expr::Part(a.net(), hi, lo))
    }

    /// One word where the condition, of one bit, is 1, and the other one, of the same width, else
    /// (IEEE 1364-2005, 5.1.13).
    pub fn choose(&mut self, condition: Signal, yes: Signal, no: Signal) -> Result<Signal, NoMemory>
        requires condition { HasSignal self.old condition }
        requires yes { HasSignal self.old yes }
        requires no { HasSignal self.old no }
        requires bit { condition.width ≡ 1 }
        requires same { no.width ≡ yes.width }
        ensures { IfOk result (Makes self.old self.new 1 yes.width
            (λ v. if v condition.net == 1 then v yes.net else v no.net)) }
    {
        self.wire(
            yes.width,
            Expr::Choose(condition.net(), yes.net(), no.net()),
        )
    }
}
