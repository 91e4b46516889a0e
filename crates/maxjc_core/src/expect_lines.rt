// The lines that `expect` says.
ghost use Rattle.std.specs.Prelude.{◌≡◌, ◌<◌, ◌++◌, length, IfOk, IfSome, OnOk};
ghost use Rattle.stream_expect.specs.declared.expected.UnguardedPlace.{UnguardedPlace as Place};
ghost use Rattle.maxjc_core.specs.ExpectLines.{guarded_line, balanced_line, expected_lines, side_word};

use mx_base::NoMemory;
use project_streams::Side;
use std::alloc::Global;
use stream_expect::{Expected, UnbalancedLink, UnguardedPlace};
use stream_graph::Kernel;

// Adds the line of where a run is first unguarded.
fn add_guarded(
    alloc: Global,
    lines: &mut Vec<u8>,
    kernels: &[Kernel],
    place: Option<UnguardedPlace>,
) -> Result<(), NoMemory>
    requires { IfSome place (λ (place : Place). place.kernel < length kernels.now) }
    ensures { OnOk result (lines.new.items ≡ lines.old.items ++ guarded_line kernels.now place) }
{
    let Some(place) = place else {
        lines.extend_from_slice(b"guarded\n")?;
        return Ok(());
    };
    lines.extend_from_slice(b"unguarded kernel ")?;
    lines.extend_from_slice(kernels[place.kernel as usize].name())?;
    let (node, tick) = (place.node, place.tick);
    lines.extend_from_slice(format!(in alloc; " node {node} tick {tick}\n")?.as_bytes())?;
    Ok(())
}

// How a link fails, between its number and the tick.
fn side_word(side: Side) -> &'static [u8]
    ensures { result.now ≡ side_word side }
{
    match side {
        Side::Dry => b" dry ",
        Side::Full => b" full ",
    }
}

// Adds the line of where a run is first unbalanced.
fn add_balanced(
    alloc: Global,
    lines: &mut Vec<u8>,
    fault: Option<UnbalancedLink>,
) -> Result<(), NoMemory>
    ensures { OnOk result (lines.new.items ≡ lines.old.items ++ balanced_line fault) }
{
    let Some(fault) = fault else {
        lines.extend_from_slice(b"balanced\n")?;
        return Ok(());
    };
    let (link, tick) = (fault.link, fault.tick);
    lines.extend_from_slice(format!(in alloc; "unbalanced link {link}")?.as_bytes())?;
    lines.extend_from_slice(side_word(fault.side))?;
    lines.extend_from_slice(format!(in alloc; "{tick}\n")?.as_bytes())?;
    Ok(())
}

/// What is said of a run: where it is first unguarded, by a kernel of these, and where it is first
/// unbalanced.
pub fn expected_lines(
    alloc: Global,
    kernels: &[Kernel],
    expected: &Expected,
) -> Result<Vec<u8>, NoMemory>
    requires { IfSome expected.now.unguarded (λ (place : Place). place.kernel < length kernels.now) }
    ensures { IfOk result (λ lines. lines.items ≡ expected_lines kernels.now expected.now) }
{
    let mut lines = Vec::new(alloc);
    add_guarded(alloc, &mut lines, kernels, expected.unguarded)?;
    add_balanced(alloc, &mut lines, expected.unbalanced)?;
    Ok(lines)
}
