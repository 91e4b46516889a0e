// Memories, and the updates of memories and registers.
ghost use Rattle.std.specs.Prelude.{◌≡◌, ◌++◌, OnOk, codes};
ghost use Rattle.std.specs.List.{flat_map};
ghost use Rattle.verilog_print.specs.Printed.{memory_text, updates_text, update_text, target_text};

use crate::printer::Printer;
use mx_base::NoMemory;
use rtl_ir::{Mem, Module, Target, Update};

impl Printer {
    /// The memories (IEEE 1364-2005, 4.9.3).
    pub fn memories(&mut self, mems: &[Mem]) -> Result<(), NoMemory>
        ensures ok { OnOk result (self.new.text ≡ self.old.text ++ flat_map memory_text mems.now) }
        ensures kept { self.new.before ≡ self.old.before }
    {
        for mem in mems {
            self.memory_line(mem)?;
        }
        Ok(())
    }

    fn memory_line(&mut self, mem: &Mem) -> Result<(), NoMemory>
        ensures ok { OnOk result (self.new.text ≡ self.old.text ++ memory_text mem.now) }
        ensures kept { self.new.before ≡ self.old.before }
    {
        self.bytes(b"reg [")?;
        self.decimal(mem.width.saturating_sub(1) as u32)?;
        self.bytes(b":0] ")?;
        self.bytes(mem.name.as_bytes())?;
        self.bytes(b" [0:")?;
        self.decimal(mem.depth.saturating_sub(1))?;
        self.bytes(b"];\n")
    }

    #[tactic(auto, using(crate::proofs::Steps::updates_none, crate::proofs::Steps::updates_some))]
    /// The updates, in one block at the clock's edge; nothing where there are none.
    pub fn updates(&mut self, module: &Module) -> Result<(), NoMemory>
        ensures ok { OnOk result (self.new.text ≡ self.old.text ++ updates_text «module».now «module».now.updates) }
        ensures kept { self.new.before ≡ self.old.before }
    {
        let updates = module.updates.as_slice();
        if updates.is_empty() {
            return Ok(());
        }
        self.block(module, updates)
    }

    fn block(&mut self, module: &Module, updates: &[Update]) -> Result<(), NoMemory>
        ensures ok { OnOk result (self.new.text ≡ self.old.text
            ++ (codes "always @(posedge clk) begin\n"
            ++ flat_map (update_text «module».now) updates.now ++ codes "end\n")) }
        ensures kept { self.new.before ≡ self.old.before }
    {
        self.bytes(b"always @(posedge clk) begin\n")?;
        for update in updates {
            self.update(module, *update)?;
        }
        self.bytes(b"end\n")?;
        Ok(())
    }

    fn update(&mut self, module: &Module, update: Update) -> Result<(), NoMemory>
        ensures ok { OnOk result (self.new.text ≡ self.old.text ++ update_text «module».now update) }
        ensures kept { self.new.before ≡ self.old.before }
    {
        let nets = module.nets.as_slice();
        self.bytes(b"if (")?;
        self.name(nets, update.enable)?;
        self.bytes(b") ")?;
        self.target(module, update.target)?;
        self.bytes(b" <= ")?;
        self.name(nets, update.value)?;
        self.bytes(b";\n")
    }

    fn target(&mut self, module: &Module, target: Target) -> Result<(), NoMemory>
        ensures ok { OnOk result (self.new.text ≡ self.old.text ++ target_text «module».now target) }
        ensures kept { self.new.before ≡ self.old.before }
    {
        match target {
            Target::Reg(net) => self.name(module.nets.as_slice(), net),
            Target::Cell(memory, address) => self.cell(module, memory, address),
        }
    }
}
