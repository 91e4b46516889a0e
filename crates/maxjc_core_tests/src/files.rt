// Files in memory for tests. Whatever owns such files has a way out for each call that may fail, and
// each of them drops the files, so the calls stand here, where the files are lent.
use crate::tests::text;
use mx_base::{MemFiles, read_whole};
use std::alloc::Global;
use std::process::Abort;
use std::test::Fail;

// Puts a file of these bytes under this name.
pub(crate) fn put(
    alloc: Global,
    files: &mut MemFiles,
    name: &[u8],
    bytes: &[u8],
) -> Result<(), Fail> {
    files.put(&text(alloc, name)?, bytes)?;
    Ok(())
}

// Puts each of these files.
pub(crate) fn put_all(
    alloc: Global,
    files: &mut MemFiles,
    held: &[(&[u8], &[u8])],
) -> Result<(), Fail> {
    for (name, bytes) in held {
        put(alloc, files, name, bytes)?;
    }
    Ok(())
}

// Files that hold these, and fail at these calls.
pub(crate) fn files_with(
    alloc: Global,
    held: &[(&[u8], &[u8])],
    fails: &[u64],
) -> Result<MemFiles, Fail> {
    let mut files = MemFiles::new(alloc, fails.to_vec(alloc)?)?;
    put_all(alloc, &mut files, held)?;
    Ok(files)
}

// A file holds these bytes.
pub(crate) fn expect_file(
    rt: &impl Abort,
    alloc: Global,
    files: &mut MemFiles,
    name: &[u8],
    bytes: &[u8],
) -> Result<(), Fail> {
    let held = read_whole(alloc, files, &text(alloc, name)?, 1_000_000)?;
    assert!(rt; held.as_slice() == bytes, "{:?}", text(alloc, name)?);
    Ok(())
}
