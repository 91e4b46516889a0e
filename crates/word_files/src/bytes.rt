// The bytes of a file, one after another.
ghost use Rattle.std.specs.Prelude.{◌≡◌, ◌⊎◌, ◌≤◌, ◌<◌, ◌+◌, ◌-◌, ◌^◌, ℕ, List, vec_len, slice_get};
ghost use Rattle.std.specs.Prelude.{is_some, Some, if◌then◌else◌, IfOk, OnOk, IsTrue, Err, false};
ghost use Rattle.std.specs.Prelude.{length};
ghost use Rattle.mx_base.specs.Counts.{Rose};
ghost use Rattle.mx_base.specs.Files.{Holds, Lacks};
ghost use Rattle.mx_base.specs.declared.error.ReadError.TheVariants.{ReadFault};

use mx_base::{Files, NoMemory, ReadError, Text};
use std::alloc::Global;

// A read asks for so many bytes.
const PIECE: usize = 4_096;

/// The bytes of a file from a place on, of which some are read ahead.
#[derive(Drop)]
pub(crate) struct FileBytes {
    pub(crate) buffer: Vec<u8>,
    pub(crate) from: usize,
    pub(crate) filled: usize,
    pub(crate) place: u64,
    ghost room: { 0 < vec_len buffer },
    ghost order: { from ≤ filled },
    ghost within: { filled ≤ vec_len buffer },
    ghost fits: { place + (filled - from) < 2 ^ 64 },
}

impl FileBytes {
    ghost use Rattle.word_files.specs.Ahead.{IsAhead};

    /// All bytes of a file.
    pub(crate) fn new(alloc: Global) -> Result<Self, NoMemory>
        ensures place { IfOk result (λ made. made.place ≡ 0) }
        ensures ahead { (file : List ℕ) → IfOk result (IsAhead file) }
        ensures none_ahead { IfOk result (λ made. made.filled ≡ made.from) }
    {
        Ok(FileBytes {
            buffer: vec![in alloc; 0; PIECE]?,
            from: 0,
            filled: 0,
            place: 0,
        })
    }

    /// Takes the next byte; `None` at the end of the file. `TooLarge` where a place has more than 64
    /// bits.
    pub(crate) fn next_byte<F: Files>(
        &mut self,
        files: &mut F,
        name: &Text,
    ) -> Result<Option<u8>, ReadError>
        ensures same { F.held files.new ≡ F.held files.old }
        ensures read_later { F.read_faults files.old ≤ F.read_faults files.new }
        ensures quiet { (result ≡ Err ReadFault → ⊥) →
            F.read_faults files.new ≡ F.read_faults files.old }
        ensures write_quiet { F.write_faults files.new ≡ F.write_faults files.old }
        ensures fault { result ≡ Err ReadFault →
            Rose (F.read_faults files.old) (F.read_faults files.new) ⊎ Lacks (F.held files.old) name.now }
        ensures lacking { Lacks (F.held files.old) name.now → self.old.filled ≡ self.old.from → result ≡ Err ReadFault }
        ensures place { IfOk result (λ byte.
            self.new.place ≡ self.old.place + (if is_some byte then 1 else 0)) }
        ensures later { self.old.place ≤ self.new.place }
        ensures most { self.new.place ≤ self.old.place + 1 }
        ensures byte { (file : List ℕ) → Holds (F.held files.old) name.now file → IsAhead file self.old →
            IfOk result (λ byte. byte ≡ slice_get file self.old.place) }
        ensures ahead { (file : List ℕ) → Holds (F.held files.old) name.now file → IsAhead file self.old →
            OnOk result (IsAhead file self.new) }
    {
        if !self.has_more(files, name)? {
            return Ok(None);
        }
        Ok(Some(self.take()))
    }

    // Takes the next byte of those ahead.
    fn take(&mut self) -> u8
        requires { self.old.from < self.old.filled }
        ensures place { self.new.place ≡ self.old.place + 1 }
        ensures byte { (file : List ℕ) → IsAhead file self.old → slice_get file self.old.place ≡ Some result }
        ensures ahead { (file : List ℕ) → IsAhead file self.old → IsAhead file self.new }
    {
        let byte = self.buffer[self.from];
        self.from += 1;
        self.place += 1;
        byte
    }

    // Whether a byte is ahead, after reading a piece where none was; false at the end of the file.
    fn has_more<F: Files>(&mut self, files: &mut F, name: &Text) -> Result<bool, ReadError>
        ensures same { F.held files.new ≡ F.held files.old }
        ensures read_later { F.read_faults files.old ≤ F.read_faults files.new }
        ensures quiet { (result ≡ Err ReadFault → ⊥) →
            F.read_faults files.new ≡ F.read_faults files.old }
        ensures write_quiet { F.write_faults files.new ≡ F.write_faults files.old }
        ensures fault { result ≡ Err ReadFault →
            Rose (F.read_faults files.old) (F.read_faults files.new) ⊎ Lacks (F.held files.old) name.now }
        ensures lacking { Lacks (F.held files.old) name.now → self.old.filled ≡ self.old.from → result ≡ Err ReadFault }
        ensures place { self.new.place ≡ self.old.place }
        ensures some { IfOk result (λ more. IsTrue more → self.new.from < self.new.filled) }
        ensures end { (file : List ℕ) → Holds (F.held files.old) name.now file → IsAhead file self.old →
            IfOk result (λ more. more ≡ false → length file ≡ self.old.place) }
        ensures ahead { (file : List ℕ) → Holds (F.held files.old) name.now file → IsAhead file self.old →
            OnOk result (IsAhead file self.new) }
    {
        if self.from < self.filled {
            return Ok(true);
        }
        let Ok(count) = files.read_at(name, self.place, &mut self.buffer) else {
            return Err(ReadError::ReadFault);
        };
        if count as u64 > u64::MAX - self.place {
            return Err(ReadError::TooLarge);
        }
        self.from = 0;
        self.filled = count;
        Ok(count > 0)
    }
}
