// A text that grows behind what was there before.
ghost use Rattle.std.specs.Prelude.{◌≡◌, ◌++◌, [], OnOk};
ghost use Rattle.std.specs.List.{flat_map};
ghost use Rattle.std.specs.Fmt.{decimal, signed_decimal};
ghost use Rattle.schedule_report.specs.Printed.{ended, time_text, flow_text, kernel_text};
ghost use Rattle.schedule_report.specs.Reports.{kernel_line};

use crate::report::ReportKernel;
use itoa::Buffer;
use mx_base::NoMemory;
use std::marker::Model;

/// A text that grows behind what was there before. A contract sees both.
#[derive(Drop)]
pub struct Printer {
    bytes: Vec<u8>,
    start: usize,
}

impl Model for Printer {
    ghost use Rattle.std.specs.Prelude.{◌≤◌, length, take, drop};
    ghost use Rattle.schedule_report.specs.Printed.{Sheet};

    ghost Value = { Sheet };

    ghost view = { λ p. record { before = take p.start p.bytes.items; text = drop p.start p.bytes.items } };

    ghost invariant = { λ p. p.start ≤ length p.bytes.items };
}

impl Printer {
    ghost use Rattle.std.specs.Prelude.{◌∷◌, codes};

    pub fn after(bytes: Vec<u8>) -> Self
        ensures { result ≡ record { before = bytes.items; text = [] } }
    {
        let start = bytes.len();
        Printer { bytes, start }
    }

    pub fn into_vec(self) -> Vec<u8>
        ensures { result.items ≡ self.before ++ self.text }
    {
        self.bytes
    }

    /// Takes all of the text away.
    pub fn undo(&mut self)
        ensures { self.new ≡ record { before = self.old.before; text = [] } }
    {
        self.bytes.truncate(self.start);
    }

    pub fn bytes(&mut self, piece: &[u8]) -> Result<(), NoMemory>
        ensures ok { OnOk result (self.new.text ≡ self.old.text ++ piece.now) }
        ensures kept { self.new.before ≡ self.old.before }
    {
        self.bytes.extend_from_slice(piece)?;
        Ok(())
    }

    pub fn number(&mut self, number: u64) -> Result<(), NoMemory>
        ensures ok { OnOk result (self.new.text ≡ self.old.text ++ decimal number) }
        ensures kept { self.new.before ≡ self.old.before }
    {
        let mut digits = Buffer::new();
        self.bytes(digits.format(number).as_bytes())
    }

    pub fn signed(&mut self, number: i64) -> Result<(), NoMemory>
        ensures ok { OnOk result (self.new.text ≡ self.old.text ++ signed_decimal number) }
        ensures kept { self.new.before ≡ self.old.before }
    {
        let mut digits = Buffer::new();
        self.bytes(digits.format(number).as_bytes())
    }

    /// The line of each time.
    fn times(&mut self, times: &[i64]) -> Result<(), NoMemory>
        ensures ok { OnOk result (self.new.text ≡ self.old.text ++ flat_map time_text times.now) }
        ensures kept { self.new.before ≡ self.old.before }
    {
        for time in times {
            self.bytes(b"time ")?;
            self.signed(*time)?;
            self.bytes(b"\n")?;
        }
        Ok(())
    }

    /// The line of each flow.
    fn flows(&mut self, flows: &[u64]) -> Result<(), NoMemory>
        ensures ok { OnOk result (self.new.text ≡ self.old.text ++ flat_map flow_text flows.now) }
        ensures kept { self.new.before ≡ self.old.before }
    {
        for flow in flows {
            self.bytes(b"flow ")?;
            self.number(*flow)?;
            self.bytes(b"\n")?;
        }
        Ok(())
    }

    /// The line of a kernel's name, counts and bits.
    fn head(&mut self, kernel: &ReportKernel) -> Result<(), NoMemory>
        ensures ok { OnOk result (self.new.text ≡ self.old.text ++ ended (kernel_line kernel.now)) }
        ensures kept { self.new.before ≡ self.old.before }
    {
        self.bytes(b"kernel ")?;
        self.bytes(kernel.name.as_bytes())?;
        self.bytes(b" nodes ")?;
        self.number(kernel.nodes as u64)?;
        self.bytes(b" edges ")?;
        self.number(kernel.edges as u64)?;
        self.bytes(b" bits ")?;
        self.number(kernel.bits)?;
        self.bytes(b"\n")
    }

    /// The lines of a kernel.
    fn kernel(&mut self, kernel: &ReportKernel) -> Result<(), NoMemory>
        ensures ok { OnOk result (self.new.text ≡ self.old.text ++ kernel_text kernel.now) }
        ensures kept { self.new.before ≡ self.old.before }
    {
        self.head(kernel)?;
        self.times(kernel.times.as_slice())?;
        self.flows(kernel.flow.as_slice())
    }

    /// The lines of all kernels, between the first line and the last one.
    pub fn kernels(&mut self, kernels: &[ReportKernel]) -> Result<(), NoMemory>
        ensures ok { OnOk result (self.new.text ≡ self.old.text
            ++ codes "maxjc-report 1\n" ++ flat_map kernel_text kernels.now ++ codes "end\n") }
        ensures kept { self.new.before ≡ self.old.before }
    {
        self.bytes(b"maxjc-report 1\n")?;
        for kernel in kernels {
            self.kernel(kernel)?;
        }
        self.bytes(b"end\n")
    }
}
