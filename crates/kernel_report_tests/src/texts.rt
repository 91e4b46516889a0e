// The report on the kernel of three neighbours, line by line, and changes of it.
use kernel_report::Judgement;
use mx_base::NoMemory;
use std::alloc::Global;

/// The lines of the report, for sums that take a tick.
pub const LINES: [&str; 19] = [
    "maxjc-report 1",
    "kernel Sum3 nodes 6 edges 5 bits 32",
    "time 0",
    "time 0",
    "time 0",
    "time 0",
    "time 1",
    "time 2",
    "flow 0",
    "flow 32",
    "flow 32",
    "flow 0",
    "flow 32",
    "flow 32",
    "flow 0",
    "flow 0",
    "flow 32",
    "flow 32",
    "end",
];

/// A line that stands in place of another one, which is told by its number from 0.
pub type Change = (usize, &'static str);

/// Changes of the report, and the judgement on the kernel's part then.
pub const JUDGED: &[(&[Change], Judgement)] = &[
    (&[], Judgement::Good),
    (&[(5, "time 70368744177664")], Judgement::Good),
    (
        &[(1, "kernel Sum2 nodes 6 edges 5 bits 32")],
        Judgement::Mismatch(0),
    ),
    (
        &[(1, "kernel Sum3 nodes 6 edges 5 bits 33")],
        Judgement::Mismatch(0),
    ),
    (&[(7, "time 3")], Judgement::Mismatch(0)),
    (&[(2, "time -1")], Judgement::Mismatch(0)),
    (&[(3, "time -1")], Judgement::Mismatch(2)),
    (&[(5, "time 70368744177665")], Judgement::Mismatch(4)),
    (&[(6, "time 0")], Judgement::BadTimes(4)),
    (
        &[(1, "kernel Sum3 nodes 6 edges 5 bits 0"), (7, "time 1")],
        Judgement::BadTimes(8),
    ),
    (&[(8, "flow 1")], Judgement::BadFlow(0)),
    (&[(17, "flow 31")], Judgement::BadFlow(5)),
    (
        &[(1, "kernel Sum3 nodes 6 edges 5 bits 64"), (7, "time 3")],
        Judgement::CostsDiffer(64, 32),
    ),
];

/// The text of the report after changes.
pub fn changed(alloc: Global, changes: &[Change]) -> Result<Vec<u8>, NoMemory> {
    let mut text = Vec::new(alloc);
    for (number, line) in LINES.iter().enumerate() {
        text.extend_from_slice(line_of(number, line, changes).as_bytes())?;
        text.push(b'\n')?;
    }
    Ok(text)
}

// A line after changes.
fn line_of<'a>(number: usize, line: &'a str, changes: &'a [Change]) -> &'a str {
    for (changed, new) in changes {
        if *changed == number {
            return new;
        }
    }
    line
}
