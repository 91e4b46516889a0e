// The calls that fail, the pieces of a file, and the adapters at the system.
ghost use Rattle.std.specs.Prelude.{◌≡◌, None, length, IfOk};
ghost use Rattle.std.specs.FinMap as finmap;

use mx_base::*;
use std::alloc::{AllocError, Global};
use std::fs;
use std::hash::{DefaultHasher, Hash, Hasher};
use std::process::Abort;
use std::test::Fail;

fn text(alloc: Global, bytes: &[u8]) -> Result<Text, AllocError> {
    Ok(Text::from_vec(bytes.to_vec(alloc)?))
}

// Whether a create, an append and a read of a held file are answered Ok, in this order.
#[tactic(auto, using(mx_base::proofs::HeldLemmas::inserted))]
fn three_calls(files: &mut MemFiles, name: &Text) -> [bool; 3]
    requires { finmap.get files.old.files name.now ≡ None → ⊥ }
{
    let created = files.create(name).is_ok();
    let appended = files.append(name, b"xy").is_ok();
    let mut buf = [0u8; 8];
    let read = files.read_at(name, 0, &mut buf).is_ok();
    [created, appended, read]
}

#[test]
#[tactic(auto, using(mx_base::proofs::HeldLemmas::inserted))]
fn files_fail_where_told(rt: HostRuntime) -> Result<(), Fail> {
    let alloc = rt.alloc();
    let name = text(alloc, b"name")?;
    let cases = [
        (0, [true, true, true], b"xy".as_slice()),
        (1, [false, true, true], b"oldxy".as_slice()),
        (2, [true, false, true], b"".as_slice()),
        (3, [true, true, false], b"xy".as_slice()),
    ];
    for (fails, answers, held) in cases {
        let mut files = MemFiles::new(alloc, vec![in alloc; fails]?)?;
        files.put(&name, b"old")?;
        assert!(rt; three_calls(&mut files, &name) == answers, "call {fails}");
        expect_whole(&rt, alloc, &mut files, b"name", held)?;
        assert!(rt; files.short() == 0);
    }
    Ok(())
}

#[test]
fn output_fails_where_told(rt: HostRuntime) -> Result<(), Fail> {
    let alloc = rt.alloc();
    let mut say = MemSay::new(alloc, vec![in alloc; 2]?)?;
    let answers = [say.say(b"one "), say.say(b"two "), say.say(b"three")];
    assert!(rt; answers == [Ok(()), Err(Failed), Ok(())]);
    assert!(rt; say.bytes() == b"one three".as_slice());
    assert!(rt; say.short() == 0);
    Ok(())
}

// A file of this name is read whole, and is these bytes.
fn expect_whole<F: Files>(
    rt: &impl Abort,
    alloc: Global,
    files: &mut F,
    name: &[u8],
    bytes: &[u8],
) -> Result<(), Fail> {
    let read = read_whole(alloc, files, &text(alloc, name)?, bytes.len() as u64)?;
    assert!(rt; read.as_slice() == bytes);
    Ok(())
}

// A file of this name isn't read whole up to this limit, by this error.
fn expect_unread<F: Files>(
    rt: &impl Abort,
    alloc: Global,
    files: &mut F,
    name: &[u8],
    limit: u64,
    error: ReadError,
) -> Result<(), Fail> {
    let read = read_whole(alloc, files, &text(alloc, name)?, limit);
    assert!(rt; read.err() == Some(error));
    Ok(())
}

#[test]
fn reads_whole_up_to_the_limit(rt: HostRuntime) -> Result<(), Fail> {
    let alloc = rt.alloc();
    let name = text(alloc, b"long")?;
    let long = vec![in alloc; 7u8; 40_000]?;
    let mut files = MemFiles::new(alloc, Vec::new(alloc))?;
    files.put(&name, &long)?;
    expect_whole(&rt, alloc, &mut files, b"long", &long)?;
    expect_unread(&rt, alloc, &mut files, b"long", 39_999, ReadError::TooLarge)?;
    expect_unread(
        &rt,
        alloc,
        &mut files,
        b"other",
        40_000,
        ReadError::ReadFault,
    )
}

#[test]
fn real_files_round_trip(rt: HostRuntime) -> Result<(), Fail> {
    let alloc = rt.alloc();
    let name = text(alloc, b"mx_base_round_trip.txt")?;
    let no_path = text(alloc, &[255])?;
    let mut files = RealFiles::new(alloc, &rt)?;
    assert!(rt; files.create(&name) == Ok(()));
    assert!(rt; files.append(&name, b"one ") == Ok(()));
    assert!(rt; files.append(&name, b"two") == Ok(()));
    assert!(rt; files.create(&no_path) == Err(Failed));
    expect_whole(
        &rt,
        alloc,
        &mut files,
        b"mx_base_round_trip.txt",
        b"one two",
    )?;
    fs::remove_file(&rt, "mx_base_round_trip.txt")?;
    let never = b"mx_base_never_made.txt";
    expect_unread(&rt, alloc, &mut files, never, 7, ReadError::ReadFault)
}

// A file of 4 GiB without contents, and three bytes behind.
#[test]
fn real_files_are_read_past_4_gib(rt: HostRuntime) -> Result<(), Fail> {
    let alloc = rt.alloc();
    let name = text(alloc, b"mx_base_sparse.txt")?;
    fs::create(&rt, "mx_base_sparse.txt")?.set_len(1 << 32)?;
    let mut files = RealFiles::new(alloc, &rt)?;
    assert!(rt; files.append(&name, b"end") == Ok(()));
    let mut bytes = [0; 3];
    assert!(rt; files.read_at(&name, 1 << 32, &mut bytes) == Ok(3));
    assert!(rt; bytes.as_slice() == b"end".as_slice());
    assert!(rt; files.read_at(&name, 0, &mut bytes) == Ok(3));
    assert!(rt; bytes.as_slice() == [0; 3].as_slice());
    fs::remove_file(&rt, "mx_base_sparse.txt")?;
    Ok(())
}

// The device that is always full takes no bytes.
#[test]
fn a_failed_write_is_told(rt: HostRuntime) -> Result<(), Fail> {
    let alloc = rt.alloc();
    let name = text(alloc, b"/dev/full")?;
    let mut files = RealFiles::new(alloc, &rt)?;
    assert!(rt; files.append(&name, b"lost") == Err(Failed));
    Ok(())
}

// More files than stay open are read and written in turn.
#[test]
fn many_real_files_in_turn(rt: HostRuntime) -> Result<(), Fail> {
    let alloc = rt.alloc();
    let mut files = RealFiles::new(alloc, &rt)?;
    for round in 0..2u8 {
        for number in 0..80u8 {
            let name = format!(in alloc; "mx_base_file_{number}.txt")?;
            let name = Text::from_vec(name.into_bytes());
            if round == 0 {
                assert!(rt; files.create(&name) == Ok(()));
            }
            assert!(rt; files.append(&name, &[number]) == Ok(()));
        }
    }
    for number in 0..80u8 {
        let path = format!(in alloc; "mx_base_file_{number}.txt")?;
        expect_whole(&rt, alloc, &mut files, path.as_bytes(), &[number, number])?;
        fs::remove_file(&rt, path.as_str())?;
    }
    Ok(())
}

#[test]
fn says_to_the_standard_output(rt: HostRuntime) {
    let mut say = StdSay::new(&rt);
    assert!(rt; say.say(b"said\n") == Ok(()));
}

// A text that has grown to abcd.
fn grown(alloc: Global) -> Result<Text, Fail> {
    let mut name = text(alloc, b"ab")?;
    name.append(b"cd")?;
    Ok(name)
}

// A list that has grown to one copy of a text.
fn list_of(alloc: Global, name: &Text) -> Result<List<Text>, Fail>
    ensures { IfOk result (λ list. length list ≡ 1) }
{
    let name = name.copy(alloc)?;
    let mut list = List::new(alloc);
    list.push(name)?;
    Ok(list)
}

#[test]
fn lists_and_texts_grow_and_compare(rt: HostRuntime) -> Result<(), Fail> {
    let alloc = rt.alloc();
    let name = grown(alloc)?;
    assert!(rt; name.len() == 4);
    let list = list_of(alloc, &name)?;
    assert!(rt; list.at(0).is(b"abcd"));
    assert!(rt; list.get(1).is_none());
    assert!(rt; list.len() == 1);
    let others = List::from_vec(vec![in alloc; text(alloc, b"abcd")?]?);
    assert!(rt; list == others);
    assert!(rt; hash_of(&name) == hash_of(others.at(0)));
    Ok(())
}

fn hash_of<T: Hash>(value: &T) -> u64 {
    let mut state = DefaultHasher::new();
    value.hash(&mut state);
    state.finish()
}
