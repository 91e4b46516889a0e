// Reading a list of words.
ghost use Rattle.std.specs.Prelude.{◌≡◌, ◌⊎◌, ◌≤◌, ◌<◌, ◌^◌, ℕ, List as Items, All, length, take, Err, IfOk};
ghost use Rattle.mx_base.specs.Counts.{Rose};
ghost use Rattle.mx_base.specs.Files.{Holds, Lacks};
ghost use Rattle.word_files.specs.declared.error.WordError.TheVariants.{ReadFault, WriteFault, NoMemory as WantOfMemory};
ghost use Rattle.word_files.specs.WordFiles.{Follows, IsUnread};
ghost use Rattle.word_lists.specs.Read.{said_by, Reads};

use mx_base::{Files, List, NoMemory, Text};
use std::alloc::Global;
use word_files::{WordError, WordReader};

/// The words of the first `most` lines of a file, or of all lines where it has fewer: each line
/// says a word of the width, 1 to 128 bits, in 1 to 32 hexadecimal digits of either case. What
/// stands behind these lines counts for nothing. Errors: `BadLine` or `WordRange` where the first
/// of these lines that says no word isn't such digits, or says a number of more bits; `ReadFault`
/// where a read failed, or where the file isn't held and `most` isn't 0; `NoMemory`.
pub fn read_words<F: Files>(
    alloc: Global,
    files: &mut F,
    name: &Text,
    width: u8,
    most: u64,
) -> Result<List<u128>, WordError>
    requires some { 1 ≤ width }
    requires at_most { width ≤ 128 }

    // The lines of the file decide, where it is held.
    ensures words { (file : Items ℕ) → Holds (F.held files.old) name.now file →
        Reads name.now width (take most (said_by file)) result }
    ensures fit { IfOk result (λ words. All (λ w. w < 2 ^ width) words) }
    ensures within { IfOk result (λ words. length words ≤ most) }
    ensures no_write { result ≡ Err WriteFault → ⊥ }

    // The files stay as they were.
    ensures same { F.held files.new ≡ F.held files.old }
    ensures read_later { F.read_faults files.old ≤ F.read_faults files.new }
    ensures quiet { (result ≡ Err ReadFault → ⊥) →
        F.read_faults files.new ≡ F.read_faults files.old }
    ensures write_quiet { F.write_faults files.new ≡ F.write_faults files.old }
    ensures fault { result ≡ Err ReadFault →
        Rose (F.read_faults files.old) (F.read_faults files.new) ⊎ Lacks (F.held files.old) name.now }
    ensures lacking { Lacks (F.held files.old) name.now → 0 < most →
        (result ≡ Err ReadFault) ⊎ (result ≡ Err WantOfMemory) }
{
    let Ok(mut reader) = open(alloc, name, width) else {
        return Err(WordError::NoMemory);
    };
    let mut words = List::new(alloc);
    while (words.len() as u64) < most {
        let Some(word) = reader.next(files)? else {
            return Ok(words);
        };
        let Ok(()) = words.push(word.bits()) else {
            return Err(WordError::NoMemory);
        };
    }
    Ok(words)
}

// A reader of the file, of which nothing is read.
fn open(alloc: Global, name: &Text, width: u8) -> Result<WordReader, NoMemory>
    requires some { 1 ≤ width }
    requires at_most { width ≤ 128 }
    ensures name { IfOk result (λ made. made.name ≡ name.now) }
    ensures width { IfOk result (λ made. made.width ≡ width) }
    ensures lines { IfOk result (λ made. made.lines ≡ 0) }
    ensures follows { (file : Items ℕ) → IfOk result (Follows file) }
    ensures unread { IfOk result IsUnread }
{
    WordReader::new(alloc, name.copy(alloc)?, width)
}
