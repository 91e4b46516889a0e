// The right sides of assignments.
ghost use Rattle.std.specs.Prelude.{◌≡◌, ◌++◌, OnOk, codes, slice_get};
ghost use Rattle.verilog_print.specs.Printed.{digits, name_of, mem_name, expr_text};
ghost use Rattle.rtl_ir.specs.Spelling.{sign_bytes};

use crate::printer::Printer;
use mx_base::NoMemory;
use mx_bits::Word;
use rtl_ir::{Expr, Mem, MemId, Module, Net, NetId, Sign};

impl Printer {
    /// The name of a net; nothing for a number of no net.
    pub fn name(&mut self, nets: &[Net], number: NetId) -> Result<(), NoMemory>
        ensures ok { OnOk result (self.new.text ≡ self.old.text ++ name_of nets.now number) }
        ensures kept { self.new.before ≡ self.old.before }
    {
        match nets.get(number.index()) {
            Some(net) => self.bytes(net.name.as_bytes()),
            None => Ok(()),
        }
    }

    /// The name of a memory; nothing for a number of no memory.
    pub fn memory(&mut self, mems: &[Mem], number: MemId) -> Result<(), NoMemory>
        ensures ok { OnOk result (self.new.text ≡ self.old.text ++ mem_name (slice_get mems.now number)) }
        ensures kept { self.new.before ≡ self.old.before }
    {
        match mems.get(number.index()) {
            Some(mem) => self.bytes(mem.name.as_bytes()),
            None => Ok(()),
        }
    }

    /// An expression (IEEE 1364-2005, clause 5).
    pub fn expr(&mut self, module: &Module, expr: Expr) -> Result<(), NoMemory>
        ensures ok { OnOk result (self.new.text ≡ self.old.text ++ expr_text «module».now expr) }
        ensures kept { self.new.before ≡ self.old.before }
    {
        let nets = module.nets.as_slice();
        match expr {
            Expr::Net(net) => self.name(nets, net),
            Expr::Literal(word) => self.literal(word),
            Expr::Not(net) => {
                self.bytes(b"~")?;
                self.name(nets, net)
            }
            Expr::Binary(sign, left, right) => self.binary(nets, sign, left, right),
            Expr::Concat(high, low) => self.concat(nets, high, low),
            Expr::Repeat(count, net) => self.repeat(nets, count, net),
            Expr::Part(net, high, low) => self.part(nets, net, high, low),
            Expr::Choose(test, one, zero) => self.choose(nets, test, one, zero),
            Expr::Cell(memory, address) => self.cell(module, memory, address),
        }
    }

    fn literal(&mut self, word: Word) -> Result<(), NoMemory>
        ensures ok { OnOk result (self.new.text ≡ self.old.text ++ (digits 10 word.width ++ codes "'h" ++ digits 16 word.bits)) }
        ensures kept { self.new.before ≡ self.old.before }
    {
        self.decimal(word.width() as u32)?;
        self.bytes(b"'h")?;
        self.hexadecimal(word.bits())
    }

    // A blank on both sides of the sign, so that no comment begins.
    fn binary(
        &mut self,
        nets: &[Net],
        sign: Sign,
        left: NetId,
        right: NetId,
    ) -> Result<(), NoMemory>
        ensures ok { OnOk result (self.new.text ≡ self.old.text
            ++ (name_of nets.now left ++ codes " " ++ sign_bytes sign ++ codes " "
            ++ name_of nets.now right)) }
        ensures kept { self.new.before ≡ self.old.before }
    {
        self.name(nets, left)?;
        self.bytes(b" ")?;
        self.bytes(sign.spelling())?;
        self.bytes(b" ")?;
        self.name(nets, right)
    }

    fn concat(&mut self, nets: &[Net], high: NetId, low: NetId) -> Result<(), NoMemory>
        ensures ok { OnOk result (self.new.text ≡ self.old.text ++ (codes "{" ++ name_of nets.now high ++ codes ", " ++ name_of nets.now low ++ codes "}")) }
        ensures kept { self.new.before ≡ self.old.before }
    {
        self.bytes(b"{")?;
        self.name(nets, high)?;
        self.bytes(b", ")?;
        self.name(nets, low)?;
        self.bytes(b"}")
    }

    fn repeat(&mut self, nets: &[Net], count: u8, net: NetId) -> Result<(), NoMemory>
        ensures ok { OnOk result (self.new.text ≡ self.old.text ++ (codes "{" ++ digits 10 count ++ codes "{" ++ name_of nets.now net ++ codes "}}")) }
        ensures kept { self.new.before ≡ self.old.before }
    {
        self.bytes(b"{")?;
        self.decimal(count as u32)?;
        self.bytes(b"{")?;
        self.name(nets, net)?;
        self.bytes(b"}}")
    }

    fn part(&mut self, nets: &[Net], net: NetId, high: u8, low: u8) -> Result<(), NoMemory>
        ensures ok { OnOk result (self.new.text ≡ self.old.text
            ++ (name_of nets.now net ++ codes "[" ++ digits 10 high ++ codes ":"
            ++ digits 10 low ++ codes "]")) }
        ensures kept { self.new.before ≡ self.old.before }
    {
        self.name(nets, net)?;
        self.bytes(b"[")?;
        self.decimal(high as u32)?;
        self.bytes(b":")?;
        self.decimal(low as u32)?;
        self.bytes(b"]")
    }

    fn choose(&mut self, nets: &[Net], test: NetId, one: NetId, zero: NetId) -> Result<(), NoMemory>
        ensures ok { OnOk result (self.new.text ≡ self.old.text
            ++ (name_of nets.now test ++ codes " ? " ++ name_of nets.now one ++ codes " : "
            ++ name_of nets.now zero)) }
        ensures kept { self.new.before ≡ self.old.before }
    {
        self.name(nets, test)?;
        self.bytes(b" ? ")?;
        self.name(nets, one)?;
        self.bytes(b" : ")?;
        self.name(nets, zero)
    }

    /// A word of a memory.
    pub fn cell(&mut self, module: &Module, memory: MemId, address: NetId) -> Result<(), NoMemory>
        ensures ok { OnOk result (self.new.text ≡ self.old.text
            ++ (mem_name (slice_get «module».now.mems memory) ++ codes "["
            ++ name_of «module».now.nets address ++ codes "]")) }
        ensures kept { self.new.before ≡ self.old.before }
    {
        self.memory(module.mems.as_slice(), memory)?;
        self.bytes(b"[")?;
        self.name(module.nets.as_slice(), address)?;
        self.bytes(b"]")
    }
}
