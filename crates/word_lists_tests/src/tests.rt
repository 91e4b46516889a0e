// Lists of words read and written.
use mx_base::{List, MemFiles, Text, read_whole};
use std::alloc::{AllocError, Global};
use std::process::Abort;
use std::test::Fail;
use word_files::WordError;
use word_lists::{read_words, write_words};

fn text(alloc: Global, bytes: &[u8]) -> Result<Text, AllocError> {
    Ok(Text::from_vec(bytes.to_vec(alloc)?))
}

// Files in memory that hold these bytes as x, where the calls of these numbers fail.
fn holding(alloc: Global, fails: &[u64], bytes: &[u8]) -> Result<MemFiles, Fail> {
    let name = text(alloc, b"x")?;
    let mut files = MemFiles::new(alloc, fails.to_vec(alloc)?)?;
    files.put(&name, bytes)?;
    Ok(files)
}

// What the words of 8 bits of the first lines are, or why there are none.
#[derive(Clone, Copy)]
enum Wanted {
    Words(&'static [u128]),
    BadLine(u64),
    WordRange(u64),
    ReadFault,
}

impl Wanted {
    fn is_met(&self, read: &Result<List<u128>, WordError>) -> bool {
        match (self, read) {
            (Wanted::Words(wanted), Ok(words)) => words.as_slice() == *wanted,
            (Wanted::BadLine(wanted), Err(WordError::BadLine(name, line))) => {
                name.is(b"x") && line == wanted
            }
            (Wanted::WordRange(wanted), Err(WordError::WordRange(name, line))) => {
                name.is(b"x") && line == wanted
            }
            (Wanted::ReadFault, Err(WordError::ReadFault)) => true,
            _ => false,
        }
    }
}

// Bytes, how many of their lines are read at most, and what comes of it.
const READ: [(&[u8], u64, Wanted); 6] = [
    (b"1\nfF\n", 2, Wanted::Words(&[1, 0xff])),
    (b"1\nfF", 9, Wanted::Words(&[1, 0xff])),
    (b"1\nfF\n\n", 2, Wanted::Words(&[1, 0xff])),
    (b"1\nfF\n\n", 3, Wanted::BadLine(3)),
    (b"1\n100\nx\n", 3, Wanted::WordRange(2)),
    (b"x", 0, Wanted::Words(&[])),
];

// The words that are read of these files are as wanted.
fn expect_words(
    rt: &impl Abort,
    alloc: Global,
    files: &mut MemFiles,
    most: u64,
    wanted: Wanted,
) -> Result<(), Fail> {
    let read = read_words(alloc, files, &text(alloc, b"x")?, 8, most);
    assert!(rt; wanted.is_met(&read));
    Ok(())
}

#[test]
fn the_first_lines_are_words_or_refused(rt: HostRuntime) -> Result<(), Fail> {
    let alloc = rt.alloc();
    for (bytes, most, wanted) in READ {
        let mut files = holding(alloc, &[], bytes)?;
        expect_words(&rt, alloc, &mut files, most, wanted)?;
    }
    let mut files = holding(alloc, &[1], b"1\n")?;
    expect_words(&rt, alloc, &mut files, 1, Wanted::ReadFault)
}

#[test]
fn a_file_that_is_missing_is_a_read_fault(rt: HostRuntime) -> Result<(), Fail> {
    let alloc = rt.alloc();
    let mut files = MemFiles::new(alloc, Vec::new(alloc))?;
    expect_words(&rt, alloc, &mut files, 1, Wanted::ReadFault)
}

// Words of 9 bits as they stand in a file.
fn expect_written(rt: &impl Abort, alloc: Global, files: &mut MemFiles) -> Result<(), Fail> {
    let name = text(alloc, b"y")?;
    write_words(alloc, files, &name, 9, &[Some(0x1ab), None, Some(0)])?;
    let bytes = read_whole(alloc, files, &name, 99)?;
    assert!(rt; bytes.as_slice() == b"1ab\nxxx\n000\n".as_slice());
    Ok(())
}

#[test]
fn words_are_written_one_a_line(rt: HostRuntime) -> Result<(), Fail> {
    let alloc = rt.alloc();
    let mut files = MemFiles::new(alloc, Vec::new(alloc))?;
    expect_written(&rt, alloc, &mut files)
}

#[test]
fn a_file_that_cannot_be_made_is_a_write_fault(rt: HostRuntime) -> Result<(), Fail> {
    let alloc = rt.alloc();
    let name = text(alloc, b"y")?;
    let mut full = MemFiles::new(alloc, vec![in alloc; 1]?)?;
    let refused = write_words(alloc, &mut full, &name, 9, &[]);
    assert!(rt; refused == Err(WordError::WriteFault));
    Ok(())
}
