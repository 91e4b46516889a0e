// Errors that stop a run.
use mx_base::{NoMemory, Text};
use simulation::{Stop, one_end};
use stall_source::{Pattern, program_stalls};
use std::alloc::{AllocError, Global};
use std::test::Fail;
use verilog_sim::SimError;
use word_files::WordError;

fn text(alloc: Global, bytes: &[u8]) -> Result<Text, AllocError> {
    Ok(Text::from_vec(bytes.to_vec(alloc)?))
}

#[test]
fn errors_stop_a_run(rt: HostRuntime) -> Result<(), Fail> {
    let alloc = rt.alloc();
    let bad = Stop::from(WordError::BadLine(text(alloc, b"x")?, 3));
    assert!(rt; bad == Stop::BadLine(text(alloc, b"x")?, 3));
    let range = Stop::from(WordError::WordRange(text(alloc, b"x")?, 3));
    assert!(rt; range == Stop::WordRange(text(alloc, b"x")?, 3));
    assert!(rt; Stop::from(WordError::ReadFault) == Stop::ReadFault);
    assert!(rt; Stop::from(WordError::WriteFault) == Stop::WriteFault);
    assert!(rt; Stop::from(SimError::TooManyCells(7)) == Stop::TooManyCells(7));
    assert!(rt; Stop::from(NoMemory) == Stop::NoMemory);
    one_end(&Pattern::new(|pick: u64, edge: u64, port: u32| program_stalls(pick, edge, port)));
    Ok(())
}
