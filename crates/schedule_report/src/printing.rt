// Prints a report.
ghost use Rattle.std.specs.Prelude.{◌≡◌, ◌++◌, OnOk, OnErr};
ghost use Rattle.schedule_report.specs.Reports.{IsReport, report_text};

use crate::printer::Printer;
use crate::report::Report;
use mx_base::NoMemory;
use std::mem;

impl Report {
    /// Appends the report's one text. After want of memory `out` is as it was.
    pub fn print(&self, out: &mut Vec<u8>) -> Result<(), NoMemory>
        requires { IsReport self.now }
        ensures ok { OnOk result (out.new.items ≡ out.old.items ++ report_text self.now) }
        ensures err { OnErr result (out.new.items ≡ out.old.items) }
    {
        let alloc = *out.allocator();
        let mut printer = Printer::after(mem::replace(out, Vec::new(alloc)));
        match printer.kernels(self.kernels.as_slice()) {
            Ok(()) => {
                *out = printer.into_vec();
                Ok(())
            }
            Err(error) => {
                printer.undo();
                *out = printer.into_vec();
                Err(error)
            }
        }
    }
}
