// The entries of files in memory, each a name and its bytes; the first of a name counts.
ghost use Rattle.std.specs.Prelude.{◌≡◌, ◌<◌, ◌≤◌, ℕ, List, ◌++◌, length, take, IfNone, IfSome, OnOk, OnErr, slice_index_or, vec_len};
ghost use Rattle.std.specs.FinMap as finmap;
ghost use Rattle.mx_base.specs.Files.{ReadsAt, names};
ghost use Rattle.mx_base.specs.Entries.{pairs, files_of};

use crate::{NoMemory, Text};
use std::alloc::Global;

/// A file in memory.
#[derive(Drop)]
pub(crate) struct Entry {
    pub(crate) name: Text,
    pub(crate) bytes: Text,
}

// The first bytes of a file from a place on.
pub(crate) fn read_piece(file: &[u8], at: u64, buf: &mut [u8]) -> usize
    ensures bound { result ≤ length buf.new }
    ensures reads { ReadsAt file.now at buf.new result }
{
    let at = at as usize;
    if at >= file.len() {
        return 0;
    }
    let count = buf.len().min(file.len() - at);
    buf[..count].copy_from_slice(&file[at..at + count]);
    count
}

// Where the entry of a name stands.
pub(crate) fn find_entry(entries: &[Entry], name: &Text) -> Option<usize>
    ensures absent { IfNone result (finmap.get (files_of entries.now) name.now ≡ None) }
    ensures held { IfSome result (λ i. (d : _) →
        finmap.get (files_of entries.now) name.now ≡ Some (slice_index_or entries.now i d).bytes) }
    ensures none { IfNone result (finmap.find names name.now (pairs entries.now) ≡ None) }
    ensures some { IfSome result (λ i. i < length entries.now) }
    ensures before { IfSome result (λ i. finmap.find names name.now (take i (pairs entries.now)) ≡ None) }
    ensures here { IfSome result (λ i. (d : _) → (slice_index_or entries.now i d).name ≡ name.now) }
{
    for (i, entry) in entries.iter().enumerate() {
        if entry.name.is(name.as_bytes()) {
            return Some(i);
        }
    }
    None
}

// Makes a name hold bytes.
pub(crate) fn put_entry(
    alloc: Global,
    entries: &mut Vec<Entry>,
    name: &Text,
    bytes: Text,
) -> Result<(), NoMemory>
    ensures ok { OnOk result (
        files_of entries.new.items ≡ finmap.insert (files_of entries.old.items) name.now bytes) }
    ensures err { OnErr result (entries.new.items ≡ entries.old.items) }
{
    match find_entry(entries, name) {
        Some(i) => {
            let entry = &mut entries[i];
            entry.bytes = bytes;
        }
        None => {
            let name = name.copy(alloc)?;
            entries.push(Entry { name, bytes })?;
        }
    }
    Ok(())
}

// Adds bytes at the end of those of an entry.
pub(crate) fn append_entry(
    entries: &mut Vec<Entry>,
    i: usize,
    name: &Text,
    piece: &[u8],
) -> Result<(), NoMemory>
    requires here { i < vec_len entries.old }
    requires before { finmap.find names name.now (take i (pairs entries.old.items)) ≡ None }
    requires named { (d : _) → (slice_index_or entries.old.items i d).name ≡ name.now }
    ensures ok { (file : List ℕ) → finmap.get (files_of entries.old.items) name.now ≡ Some file → OnOk result (
        files_of entries.new.items ≡ finmap.insert (files_of entries.old.items) name.now (file ++ piece.now)) }
    ensures err { OnErr result (entries.new.items ≡ entries.old.items) }
{
    let entry = &mut entries[i];
    entry.bytes.append(piece)?;
    Ok(())
}
