// Run files, and words read and written.
use mx_base::{List, MemFiles, Text, read_whole};
use mx_bits::Word;
use rtl_ir::{Interface, KernelPorts, NetId};
use std::alloc::{AllocError, Global};
use std::process::Abort;
use std::test::Fail;
use word_files::*;

fn text(alloc: Global, bytes: &[u8]) -> Result<Text, AllocError> {
    Ok(Text::from_vec(bytes.to_vec(alloc)?))
}

// Whether the bytes are refused under this key.
fn is_refused(alloc: Global, bytes: &[u8], key: &[u8]) -> bool {
    match RunFile::read(alloc, bytes) {
        Err(RunFileError::Shape(name)) => name.is(key),
        _ => false,
    }
}

#[test]
fn faulty_run_files_are_refused(rt: HostRuntime) {
    let alloc = rt.alloc();
    assert!(rt; is_refused(alloc, b"[]", b"-"));
    assert!(rt; is_refused(alloc, b"{}", b"ticks"));
    assert!(rt; is_refused(alloc, b"{\"ticks\":{\"K\":1.0}}", b"ticks"));
    assert!(rt; is_refused(alloc, b"{\"ticks\":{}}", b"inputs"));
    assert!(rt; matches!(RunFile::read(alloc, b"{"), Err(RunFileError::NotJson)));
}

fn no_ports(alloc: Global) -> Interface {
    Interface {
        clock: NetId::new(0),
        reset: NetId::new(1),
        kernels: List::new(alloc),
        scalars: List::new(alloc),
        inputs: List::new(alloc),
        outputs: List::new(alloc),
        done: NetId::new(2),
    }
}

// The ports of a kernel K alone.
fn ports_of_k(alloc: Global) -> Result<Interface, Fail> {
    let kernel = KernelPorts {
        name: text(alloc, b"K")?,
        hold: NetId::new(3),
        ticks: NetId::new(4),
    };
    let mut ports = no_ports(alloc);
    ports.kernels.push(kernel)?;
    Ok(ports)
}

// A run file that says nothing of K doesn't fit its ports.
fn expect_no_ticks(rt: &impl Abort, alloc: Global, run: &RunFile) -> Result<(), Fail> {
    let lacking = RunFileError::Shape(text(alloc, b"ticks")?);
    let ports = ports_of_k(alloc)?;
    assert!(rt; run.fit(alloc, &ports) == Err(lacking));
    Ok(())
}

#[test]
fn a_run_file_fits_its_ports(rt: HostRuntime) -> Result<(), Fail> {
    let alloc = rt.alloc();
    let run = RunFile::read(
        alloc,
        b"{\"ticks\":{},\"inputs\":{},\"outputs\":{},\"edges\":12}",
    )?;
    assert!(rt; run.edges == 12);
    assert!(rt; run.fit(alloc, &no_ports(alloc)) == Ok(()));
    expect_no_ticks(&rt, alloc, &run)
}

// Files in memory that hold these bytes as x, where the call of this number fails.
fn holding(alloc: Global, fails: u64, bytes: &[u8]) -> Result<MemFiles, Fail> {
    let name = text(alloc, b"x")?;
    let mut files = MemFiles::new(alloc, vec![in alloc; fails]?)?;
    files.put(&name, bytes)?;
    Ok(files)
}

// What a reader of words answers first.
#[derive(Clone, Copy)]
enum Wanted {
    Word(u128),
    End,
    BadLine,
    WordRange,
    ReadFault,
}

impl Wanted {
    fn is_met(&self, first: &Result<Option<Word>, WordError>) -> bool {
        match (self, first) {
            (Wanted::Word(wanted), Ok(Some(word))) => word.bits() == *wanted,
            (Wanted::End, Ok(None)) | (Wanted::ReadFault, Err(WordError::ReadFault)) => true,
            (Wanted::BadLine, Err(WordError::BadLine(name, line)))
            | (Wanted::WordRange, Err(WordError::WordRange(name, line))) => {
                name.is(b"x") && *line == 1
            }
            _ => false,
        }
    }
}

// Bytes, the call that fails or 0, and what a reader of words of 8 bits answers first.
const FIRST: [(&[u8], u64, Wanted); 6] = [
    (b"fF", 0, Wanted::Word(255)),
    (b"", 0, Wanted::End),
    (b"1\r\n", 0, Wanted::BadLine),
    (b"\n1", 0, Wanted::BadLine),
    (b"100", 0, Wanted::WordRange),
    (b"1", 1, Wanted::ReadFault),
];

// A reader of words of 8 bits answers so first.
fn expect_first(
    rt: &impl Abort,
    alloc: Global,
    files: &mut MemFiles,
    wanted: Wanted,
) -> Result<(), Fail> {
    let mut reader = WordReader::new(alloc, text(alloc, b"x")?, 8)?;
    let first = reader.next(files);
    assert!(rt; wanted.is_met(&first));
    Ok(())
}

#[test]
fn lines_are_words_or_refused(rt: HostRuntime) -> Result<(), Fail> {
    let alloc = rt.alloc();
    for (bytes, fails, wanted) in FIRST {
        let mut files = holding(alloc, fails, bytes)?;
        expect_first(&rt, alloc, &mut files, wanted)?;
    }
    Ok(())
}

// Words of 9 bits as they stand in a file.
fn expect_written(rt: &impl Abort, alloc: Global, files: &mut MemFiles) -> Result<(), Fail> {
    let mut writer = WordWriter::create(alloc, files, text(alloc, b"y")?, 9)?;
    writer.put(files, Some(Word::new(0x1ab, 9)))?;
    writer.put(files, None)?;
    writer.flush(files)?;
    let bytes = read_whole(alloc, files, &text(alloc, b"y")?, 99)?;
    assert!(rt; bytes.as_slice() == b"1ab\nxxx\n".as_slice());
    Ok(())
}

#[test]
fn words_are_written_in_whole_lines(rt: HostRuntime) -> Result<(), Fail> {
    let alloc = rt.alloc();
    let mut files = MemFiles::new(alloc, Vec::new(alloc))?;
    expect_written(&rt, alloc, &mut files)
}
