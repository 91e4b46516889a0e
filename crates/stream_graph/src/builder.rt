// What receives the calls that make a kernel.
ghost use Rattle.std.specs.Prelude.{◌≡◌, ◌+◌, ℕ, map};
ghost use Rattle.std.specs.Option.{option_map};
ghost use Rattle.kernel_calls.specs.declared.call.Call.{Call};
ghost use Rattle.kernel_calls.specs.declared.call.Call.TheVariants.{Input, Output, Scalar};
ghost use Rattle.kernel_calls.specs.declared.call.Call.TheVariants.{Constant, Operation, Offset};
ghost use Rattle.kernel_calls.specs.declared.call.Call.TheVariants.{Feed, Connect, Hold, Counter};
ghost use Rattle.kernel_calls.specs.declared.call.Call.TheVariants.{Chain, ChainDigit};

use counter_chains::CounterDigit;
use fix_arith::{RoundMode, StreamType};
use mx_bits::{Op, Word};

/// A handle of a node, which has a number.
pub trait Numbered {
    ghost number: { Self → ℕ };
}

/// What receives the calls that make a kernel. A call that makes a node answers the number of nodes made before.
pub trait Builder {
    type Var: Copy + Numbered;

    /// How many nodes were made so far.
    ghost made: { Self → ℕ };

    /// There is room for the call.
    ghost has_room: { Self → Call → Type 0 };

    /// The call takes the first state to the second.
    ghost receives: { Self → Call → Self → Type 0 };

    fn input(&mut self, name: &[u8], t: StreamType, control: Option<Self::Var>) -> Self::Var
        requires { has_room self.old (Input name.now t (option_map Self.Var.number control)) }
        ensures call { receives self.old (Input name.now t (option_map Self.Var.number control)) self.new }
        ensures number { Self.Var.number result ≡ made self.old }
        ensures count { made self.new ≡ made self.old + 1 };

    fn output(
        &mut self,
        name: &[u8],
        value: Self::Var,
        control: Option<Self::Var>,
        t: StreamType,
    ) -> Self::Var
        requires { has_room self.old (Output name.now (Self.Var.number value) (option_map Self.Var.number control) t) }
        ensures call { receives self.old (Output name.now (Self.Var.number value) (option_map Self.Var.number control) t) self.new }
        ensures number { Self.Var.number result ≡ made self.old }
        ensures count { made self.new ≡ made self.old + 1 };

    fn scalar(&mut self, name: &[u8], t: StreamType) -> Self::Var
        requires { has_room self.old (Scalar name.now t) }
        ensures call { receives self.old (Scalar name.now t) self.new }
        ensures number { Self.Var.number result ≡ made self.old }
        ensures count { made self.new ≡ made self.old + 1 };

    fn constant(&mut self, word: Word, t: StreamType) -> Self::Var
        requires { has_room self.old (Constant word.bits t) }
        ensures call { receives self.old (Constant word.bits t) self.new }
        ensures number { Self.Var.number result ≡ made self.old }
        ensures count { made self.new ≡ made self.old + 1 };

    fn operation(
        &mut self,
        op: Op,
        mode: RoundMode,
        amount: u8,
        args: &[Self::Var],
        t: StreamType,
    ) -> Self::Var
        requires { has_room self.old (Operation op mode amount (map Self.Var.number args.now) t) }
        ensures call { receives self.old (Operation op mode amount (map Self.Var.number args.now) t) self.new }
        ensures number { Self.Var.number result ≡ made self.old }
        ensures count { made self.new ≡ made self.old + 1 };

    fn offset(&mut self, value: Self::Var, k: i32, t: StreamType) -> Self::Var
        requires { has_room self.old (Offset (Self.Var.number value) k t) }
        ensures call { receives self.old (Offset (Self.Var.number value) k t) self.new }
        ensures number { Self.Var.number result ≡ made self.old }
        ensures count { made self.new ≡ made self.old + 1 };

    fn feed(&mut self, t: StreamType) -> Self::Var
        requires { has_room self.old (Feed t) }
        ensures call { receives self.old (Feed t) self.new }
        ensures number { Self.Var.number result ≡ made self.old }
        ensures count { made self.new ≡ made self.old + 1 };

    fn connect(&mut self, feed: Self::Var, value: Self::Var)
        requires { has_room self.old (Connect (Self.Var.number feed) (Self.Var.number value)) }
        ensures call { receives self.old (Connect (Self.Var.number feed) (Self.Var.number value)) self.new }
        ensures count { made self.new ≡ made self.old };

    fn hold(&mut self, value: Self::Var, store: Self::Var, t: StreamType) -> Self::Var
        requires { has_room self.old (Hold (Self.Var.number value) (Self.Var.number store) t) }
        ensures call { receives self.old (Hold (Self.Var.number value) (Self.Var.number store) t) self.new }
        ensures number { Self.Var.number result ≡ made self.old }
        ensures count { made self.new ≡ made self.old + 1 };

    fn counter(&mut self, digit: CounterDigit) -> Self::Var
        requires { has_room self.old (Counter digit) }
        ensures call { receives self.old (Counter digit) self.new }
        ensures number { Self.Var.number result ≡ made self.old }
        ensures count { made self.new ≡ made self.old + 1 };

    fn chain(&mut self) -> Self::Var
        requires { has_room self.old Chain }
        ensures call { receives self.old Chain self.new }
        ensures number { Self.Var.number result ≡ made self.old }
        ensures count { made self.new ≡ made self.old + 1 };

    fn chain_digit(&mut self, chain: Self::Var, digit: CounterDigit) -> Self::Var
        requires { has_room self.old (ChainDigit (Self.Var.number chain) digit) }
        ensures call { receives self.old (ChainDigit (Self.Var.number chain) digit) self.new }
        ensures number { Self.Var.number result ≡ made self.old }
        ensures count { made self.new ≡ made self.old + 1 };
}
