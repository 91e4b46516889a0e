// Writing a file of words.
ghost use Rattle.std.specs.Prelude.{◌≡◌, ◌⊎◌, ◌≤◌, ◌++◌, ℕ, List, [], IfOk, OnOk, OnErr, IfErr, IfSome, IsSome, ◌<◌, ◌+◌, length, vec_len};
ghost use Rattle.mx_base.specs.Counts.{Rose};
ghost use Rattle.mx_base.specs.Files.{Holds, Lacks, ChangesOnly};
ghost use Rattle.word_files.specs.Written.{line_of};
ghost use Rattle.word_files.specs.declared.error.WordError.TheVariants.{WriteFault, NoMemory};

use crate::WordError;
use crate::digits::{MOST_LINE, count_digits, digits};
use mx_base::{Files, Text};
use mx_bits::Word;
use std::alloc::Global;

// So many bytes are written at once, or up to one line more.
const PIECE: usize = 4_096;

/// Writes a file of words, one a line: as many lower-case hexadecimal digits as the width over 4
/// rounded up, ended by LF; an undefined word has `x` for each digit. Whole lines of fewer than 4,096
/// bytes wait, and are written together.
#[derive(Drop)]
pub struct WordWriter {
    pub(crate) name: Text,
    pub(crate) width: u8,
    pub(crate) waiting: Vec<u8>,
    ghost some: { 1 ≤ width },
    ghost at_most: { width ≤ 128 },
    ghost bounded: { vec_len waiting < 4096 },
}

impl WordWriter {
    ghost use Rattle.word_files.specs.Written.{Puts};

    /// Makes the file hold nothing, for words of this width. After `NoMemory` the files are as
    /// before; after `WriteFault` nothing is said of this file alone.
    pub fn create<F: Files>(
        alloc: Global,
        files: &mut F,
        name: Text,
        width: u8,
    ) -> Result<Self, WordError>
        requires some { 1 ≤ width }
        requires at_most { width ≤ 128 }
        ensures name { IfOk result (λ made. made.name ≡ name) }
        ensures width { IfOk result (λ made. made.width ≡ width) }
        ensures waiting { IfOk result (λ made. made.waiting.items ≡ []) }
        ensures made { OnOk result (IsSome (F.held files.old) → Holds (F.held files.new) name []) }
        ensures only { ChangesOnly name (F.held files.old) (F.held files.new) }
        ensures errors { IfErr result (λ e. (e ≡ WriteFault) ⊎ (e ≡ NoMemory)) }
        ensures memory { result ≡ Err NoMemory → F.held files.new ≡ F.held files.old }
        ensures read_quiet { F.read_faults files.new ≡ F.read_faults files.old }
        ensures write_later { F.write_faults files.old ≤ F.write_faults files.new }
        ensures quiet { (result ≡ Err WriteFault → ⊥) →
            F.write_faults files.new ≡ F.write_faults files.old }
        ensures fault { result ≡ Err WriteFault →
            Rose (F.write_faults files.old) (F.write_faults files.new) }
    {
        let waiting = Vec::with_capacity(alloc, PIECE + MOST_LINE)?;
        let Ok(()) = files.create(&name) else {
            return Err(WordError::WriteFault);
        };
        Ok(WordWriter {
            name,
            width,
            waiting,
        })
    }

    /// Puts the line of a word after those put before. After `NoMemory` nothing has changed; after
    /// `WriteFault` nothing is said of this file alone.
    pub fn put<F: Files>(&mut self, files: &mut F, word: Option<Word>) -> Result<(), WordError>
        requires width { IfSome word (λ w. w.width ≡ self.old.width) }
        requires held { Lacks (F.held files.old) self.old.name → ⊥ }
        ensures name { self.new.name ≡ self.old.name }
        ensures width { self.new.width ≡ self.old.width }
        ensures put { (file : List ℕ) → Holds (F.held files.old) self.old.name file →
            OnOk result ((written : List ℕ) × Holds (F.held files.new) self.old.name written
            × Puts file self.old.waiting.items (line_of self.old.width word) written self.new.waiting.items) }
        ensures only { ChangesOnly self.old.name (F.held files.old) (F.held files.new) }
        ensures errors { IfErr result (λ e. (e ≡ WriteFault) ⊎ (e ≡ NoMemory)) }
        ensures memory { result ≡ Err NoMemory → F.held files.new ≡ F.held files.old }
        ensures waiting { result ≡ Err NoMemory → self.new.waiting.items ≡ self.old.waiting.items }
        ensures bounded { length self.new.waiting.items < 4096 }
        ensures read_quiet { F.read_faults files.new ≡ F.read_faults files.old }
        ensures write_later { F.write_faults files.old ≤ F.write_faults files.new }
        ensures quiet { (result ≡ Err WriteFault → ⊥) →
            F.write_faults files.new ≡ F.write_faults files.old }
        ensures fault { result ≡ Err WriteFault →
            Rose (F.write_faults files.old) (F.write_faults files.new) }
    {
        add_line(&mut self.waiting, self.width, word)?;
        if self.waiting.len() < PIECE {
            return Ok(());
        }
        write(files, &self.name, &mut self.waiting)?;
        Ok(())
    }

    /// Writes the lines that wait. After `WriteFault` nothing is said of this file alone.
    pub fn flush<F: Files>(&mut self, files: &mut F) -> Result<(), WordError>
        requires { Lacks (F.held files.old) self.old.name → ⊥ }
        ensures name { self.new.name ≡ self.old.name }
        ensures width { self.new.width ≡ self.old.width }
        ensures waiting { self.new.waiting.items ≡ [] }
        ensures written { (file : List ℕ) → Holds (F.held files.old) self.old.name file →
            OnOk result (Holds (F.held files.new) self.old.name (file ++ self.old.waiting.items)) }
        ensures only { ChangesOnly self.old.name (F.held files.old) (F.held files.new) }
        ensures errors { IfErr result (λ e. e ≡ WriteFault) }
        ensures read_quiet { F.read_faults files.new ≡ F.read_faults files.old }
        ensures write_later { F.write_faults files.old ≤ F.write_faults files.new }
        ensures quiet { (result ≡ Err WriteFault → ⊥) →
            F.write_faults files.new ≡ F.write_faults files.old }
        ensures fault { result ≡ Err WriteFault →
            Rose (F.write_faults files.old) (F.write_faults files.new) }
    {
        write(files, &self.name, &mut self.waiting)
    }
}

// Puts the line of a word behind those that wait.
fn add_line(waiting: &mut Vec<u8>, width: u8, word: Option<Word>) -> Result<(), WordError>
    requires { width ≤ 128 }
    ensures line { OnOk result (waiting.new.items ≡ waiting.old.items ++ line_of width word) }
    ensures size { length waiting.new.items ≤ length waiting.old.items + 33 }
    ensures same { OnErr result (waiting.new.items ≡ waiting.old.items) }
    ensures errors { IfErr result (λ e. e ≡ NoMemory) }
{
    let count = count_digits(width);
    let mut line = digits(width, word);
    line[count] = b'\n';
    waiting.extend_from_slice(&line[..count + 1])?;
    Ok(())
}

// Writes what waits. Whether that succeeds or not, nothing waits then.
fn write<F: Files>(files: &mut F, name: &Text, waiting: &mut Vec<u8>) -> Result<(), WordError>
    requires { Lacks (F.held files.old) name.now → ⊥ }
    ensures waiting { waiting.new.items ≡ [] }
    ensures written { (file : List ℕ) → Holds (F.held files.old) name.now file →
        OnOk result (Holds (F.held files.new) name.now (file ++ waiting.old.items)) }
    ensures only { ChangesOnly name.now (F.held files.old) (F.held files.new) }
    ensures errors { IfErr result (λ e. e ≡ WriteFault) }
    ensures read_quiet { F.read_faults files.new ≡ F.read_faults files.old }
    ensures write_later { F.write_faults files.old ≤ F.write_faults files.new }
    ensures quiet { (result ≡ Err WriteFault → ⊥) →
        F.write_faults files.new ≡ F.write_faults files.old }
    ensures fault { result ≡ Err WriteFault →
        Rose (F.write_faults files.old) (F.write_faults files.new) }
{
    let written = files.append(name, waiting);
    waiting.clear();
    match written {
        Ok(()) => Ok(()),
        Err(_) => Err(WordError::WriteFault),
    }
}
