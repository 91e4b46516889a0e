// Which texts are reports, and that reports are printed as they were read.
use crate::texts::{SUM, TEXTS};
use mx_base::NoMemory;
use schedule_report::{Report, ReportError};
use std::alloc::Global;
use std::test::Fail;

/// The number of the first wrong line, or 0 where the text is a report.
fn wrong_line(alloc: Global, text: &str) -> Result<u64, NoMemory> {
    match Report::read(alloc, text.as_bytes()) {
        Ok(_) => Ok(0),
        Err(ReportError::Shape(number)) => Ok(number),
        Err(ReportError::NoMemory) => Err(NoMemory),
    }
}

#[test]
fn first_wrong_lines_are_found(rt: HostRuntime) -> Result<(), Fail> {
    let alloc = rt.alloc();
    for (text, number) in TEXTS {
        assert!(rt; wrong_line(alloc, text)? == *number, "{text}");
    }
    Ok(())
}

#[test]
fn a_report_is_printed_as_it_was_read(rt: HostRuntime) -> Result<(), Fail> {
    let alloc = rt.alloc();
    let report = Report::read(alloc, SUM.as_bytes())?;
    let mut out = b"# ".to_vec(alloc)?;
    report.print(&mut out)?;
    assert!(rt; out.starts_with(b"# "));
    assert!(rt; &out[2..] == SUM.as_bytes());
    Ok(())
}
