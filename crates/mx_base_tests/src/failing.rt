// The failures of calls: for want of memory, or for a cause.
use mx_base::Fail::{Because, NoMemory};
use mx_base::{Fail, Text};
use std::alloc::{AllocError, Global};
use std::process::Abort;
use std::test;

// The failures of a call that has memory for eight bytes at most.
fn short(alloc: Global, bytes: &[u8]) -> Result<Text, Fail<usize>> {
    if bytes.len() > 8 {
        return Err(Because(bytes.len()));
    }
    let mut text = Text::from_vec(bytes.to_vec(alloc)?);
    text.append(b".")?;
    Ok(text)
}

#[test]
fn a_cause_is_mapped_and_want_of_memory_stays(rt: HostRuntime) -> Result<(), test::Fail> {
    let alloc = rt.alloc();
    assert!(rt; short(alloc, b"text").is_ok());
    let longer = short(alloc, b"a longer text").map_err(|fail| fail.map(|size| size > 9));
    assert!(rt; longer.err() == Some(Because(true)));
    assert!(rt; Fail::<usize>::from(AllocError).map(|size| size > 9) == NoMemory);
    Ok(())
}
