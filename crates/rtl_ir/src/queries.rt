// What the passes over a design ask of its parts.
ghost use Rattle.std.specs.Prelude.{◌≡◌, ◌<◌, length, Some, slice_get};
ghost use Rattle.std.specs.Option.{option_copied};
ghost use Rattle.rtl_ir.specs.Value.{width_of, is_reg};
ghost use Rattle.rtl_ir.specs.Typed.{word_width};
ghost use Rattle.rtl_ir.specs.Flat.{top_of};
ghost use Rattle.rtl_ir.specs.Operands.{reads};
ghost use Rattle.rtl_ir.specs.Spelling.{sign_bytes};

use crate::{Design, Expr, MemId, Module, Net, NetId, Sign};
use smallvec::SmallVec;
use std::alloc::Global;

impl Design {
    /// The top module, which is the last one.
    pub fn top(&self) -> &Module
        requires { 0 < length self.now.modules }
        ensures { top_of self.now ≡ Some result.now }
    {
        self.modules.at(self.modules.len() - 1)
    }
}

impl Module {
    /// The net with a number.
    pub fn net(&self, net: NetId) -> Option<&Net>
        ensures { option_copied result ≡ slice_get self.now.nets net }
    {
        self.nets.get(net.index())
    }

    /// The width of the net with a number, in bits, and 0 for a number of no net.
    pub fn width(&self, net: NetId) -> u8
        ensures { result ≡ width_of self.now net }
    {
        match self.nets.get(net.index()) {
            Some(net) => net.width,
            None => 0,
        }
    }

    /// Whether the net with a number is a register.
    pub fn is_register(&self, net: NetId) -> bool
        ensures { result ≡ is_reg self.now net }
    {
        match self.nets.get(net.index()) {
            Some(net) => net.reg,
            None => false,
        }
    }

    /// The width of the words of the memory with a number, in bits, and 0 for a number of no memory.
    pub fn word_width(&self, mem: MemId) -> u8
        ensures { result ≡ word_width self.now mem }
    {
        match self.mems.get(mem.index()) {
            Some(mem) => mem.width,
            None => 0,
        }
    }
}

impl Expr {
    /// The nets that the expression reads, in the order in which it is written, at most three.
    pub fn operands(&self, alloc: Global) -> SmallVec<NetId, 3>
        ensures { result.items ≡ reads self.now }
    {
        let mut nets = SmallVec::new(alloc);
        match *self {
            Expr::Literal(_) => {}
            Expr::Net(net)
            | Expr::Not(net)
            | Expr::Repeat(_, net)
            | Expr::Part(net, _, _)
            | Expr::Cell(_, net) => nets.push_reserved(net),
            Expr::Binary(_, left, right) | Expr::Concat(left, right) => {
                nets.push_reserved(left);
                nets.push_reserved(right);
            }
            Expr::Choose(test, yes, no) => {
                nets.push_reserved(test);
                nets.push_reserved(yes);
                nets.push_reserved(no);
            }
        }
        nets
    }
}

impl Sign {
    /// How the operator is written (IEEE 1364-2005, 5.1.1).
    pub fn spelling(self) -> &'static [u8]
        ensures { result.now ≡ sign_bytes self }
    {
        match self {
            Sign::Add => b"+",
            Sign::Sub => b"-",
            Sign::Mul => b"*",
            Sign::Div => b"/",
            Sign::And => b"&",
            Sign::Or => b"|",
            Sign::Xor => b"^",
            Sign::Eq => b"==",
            Sign::Lt => b"<",
        }
    }
}
