// The lines that a command says of kernels and of links.
ghost use Rattle.std.specs.Prelude.{◌≡◌, ◌++◌, codes, OnOk, IfOk};
ghost use Rattle.std.specs.Fmt.{decimal};
ghost use Rattle.std.specs.List.{flat_map};
ghost use Rattle.maxjc_core.specs.Checking.{least_line};
ghost use Rattle.maxjc_core.specs.Compiling.{link_line, summary_of};

use manager_links::Link;
use mx_base::NoMemory;
use schedule_report::ReportKernel;
use std::alloc::Global;

// Adds the line `kernel NAME WORD B`.
fn add_bits(
    alloc: Global,
    lines: &mut Vec<u8>,
    part: &ReportKernel,
    word: &str,
) -> Result<(), NoMemory>
    ensures { OnOk result (lines.new.items ≡ lines.old.items
        ++ (codes "kernel " ++ part.now.name ++ word.now ++ decimal part.now.bits ++ codes "\n")) }
{
    lines.extend_from_slice(b"kernel ")?;
    lines.extend_from_slice(part.name.as_bytes())?;
    lines.extend_from_slice(word.as_bytes())?;
    let bits = part.bits;
    lines.extend_from_slice(format!(in alloc; "{bits}\n")?.as_bytes())?;
    Ok(())
}

// Adds the line `link I depth D`.
fn add_depth(alloc: Global, lines: &mut Vec<u8>, number: usize, link: &Link) -> Result<(), NoMemory>
    ensures { OnOk result (lines.new.items ≡ lines.old.items ++ link_line number link.now) }
{
    let depth = link.depth;
    lines.extend_from_slice(format!(in alloc; "link {number} depth {depth}\n")?.as_bytes())?;
    Ok(())
}

/// What is said of a project that was compiled: for each kernel the line `kernel NAME fifo B`, and
/// then for each link the line `link I depth D`.
pub fn summary_of(
    alloc: Global,
    parts: &[ReportKernel],
    links: &[Link],
) -> Result<Vec<u8>, NoMemory>
    ensures { IfOk result (λ lines. lines.items ≡ summary_of parts.now links.now) }
{
    let mut lines = Vec::new(alloc);
    for part in parts {
        add_bits(alloc, &mut lines, part, " fifo ")?;
    }
    for (number, link) in links.iter().enumerate() {
        add_depth(alloc, &mut lines, number, link)?;
    }
    Ok(lines)
}

/// What is said of a report that shows least schedules: for each kernel the line
/// `kernel NAME least B`.
pub fn least_lines(alloc: Global, parts: &[ReportKernel]) -> Result<Vec<u8>, NoMemory>
    ensures { IfOk result (λ lines. lines.items ≡ flat_map least_line parts.now) }
{
    let mut lines = Vec::new(alloc);
    for part in parts {
        add_bits(alloc, &mut lines, part, " least ")?;
    }
    Ok(lines)
}
