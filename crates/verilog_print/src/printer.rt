// A text that grows behind what was there before.
ghost use Rattle.std.specs.Prelude.{◌≡◌, ◌++◌, ◌<◌, ◌≤◌, ◌^◌, ℕ, [], OnOk};
ghost use Rattle.verilog_print.specs.Printed.{digit_byte};

use mx_base::NoMemory;
use std::marker::Model;

/// A text that grows behind what was there before. A contract sees both.
#[derive(Drop)]
pub struct Printer {
    bytes: Vec<u8>,
    start: usize,
}

impl Model for Printer {
    ghost use Rattle.std.specs.Prelude.{◌≤◌, length, take, drop};
    ghost use Rattle.verilog_print.specs.Printed.{Sheet};

    ghost Value = { Sheet };

    ghost view = { λ p. record { before = take p.start p.bytes.items; text = drop p.start p.bytes.items } };

    ghost invariant = { λ p. p.start ≤ length p.bytes.items };
}

impl Printer {
    ghost use Rattle.verilog_print.specs.Printed.{digits};

    pub fn after(bytes: Vec<u8>) -> Self
        ensures { result ≡ record { before = bytes.items; text = [] } }
    {
        let start = bytes.len();
        Printer { bytes, start }
    }

    pub fn into_vec(self) -> Vec<u8>
        ensures { result.items ≡ self.before ++ self.text }
    {
        self.bytes
    }

    /// Takes all of the text away.
    pub fn undo(&mut self)
        ensures { self.new ≡ record { before = self.old.before; text = [] } }
    {
        self.bytes.truncate(self.start);
    }

    pub fn bytes(&mut self, piece: &[u8]) -> Result<(), NoMemory>
        ensures ok { OnOk result (self.new.text ≡ self.old.text ++ piece.now) }
        ensures kept { self.new.before ≡ self.old.before }
    {
        self.bytes.extend_from_slice(piece)?;
        Ok(())
    }

    /// The digits of a number in a base of 2 to 16, without leading zeros.
    #[tactic(auto, using(crate::proofs::Steps::digits_small, crate::proofs::Steps::digits_large))]
    fn digits(&mut self, number: u128, base: u128) -> Result<(), NoMemory>
        requires some { 2 ≤ base }
        requires at_most { base ≤ 16 }
        ensures ok { OnOk result (self.new.text ≡ self.old.text ++ digits base number) }
        ensures kept { self.new.before ≡ self.old.before }
    {
        if number < base {
            return self.bytes(&[digit(number as u8)]);
        }
        self.digits(number / base, base)?;
        self.bytes(&[digit((number % base) as u8)])
    }

    pub fn decimal(&mut self, number: u32) -> Result<(), NoMemory>
        ensures ok { OnOk result (self.new.text ≡ self.old.text ++ digits 10 number) }
        ensures kept { self.new.before ≡ self.old.before }
    {
        self.digits(number as u128, 10)
    }

    /// Hexadecimal digits, in lower case.
    pub fn hexadecimal(&mut self, number: u128) -> Result<(), NoMemory>
        ensures ok { OnOk result (self.new.text ≡ self.old.text ++ digits 16 number) }
        ensures kept { self.new.before ≡ self.old.before }
    {
        self.digits(number, 16)
    }
}

// A digit, in lower case.
fn digit(number: u8) -> u8
    requires { number < 16 }
    ensures { result ≡ digit_byte number }
{
    if number < 10 {
        b'0' + number
    } else {
        b'a' + (number - 10)
    }
}
