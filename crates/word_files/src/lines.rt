// The lines of a file, one after another.
ghost use Rattle.std.specs.Prelude.{◌≡◌, ◌⊎◌, ◌≤◌, ◌<◌, ◌+◌, ℕ, List, IfOk, OnOk, MatchOption, IfSome};
ghost use Rattle.mx_base.specs.Counts.{Rose};
ghost use Rattle.mx_base.specs.Files.{Holds, Lacks};
ghost use Rattle.word_files.specs.Ahead.{IsAhead};
ghost use Rattle.word_files.specs.Lines.{IsLineTaken};
ghost use Rattle.mx_base.specs.declared.error.ReadError.TheVariants.{ReadFault};

use crate::bytes::FileBytes;
use mx_base::{Files, ReadError, Text};

// So many bytes of a line are taken at most, one more than a word has digits.
pub(crate) const MOST_TAKEN: usize = 33;

impl FileBytes {
    /// Takes the bytes of the next line, without the LF that ends it, into the front of the piece,
    /// and says how many; `None` at the end of the file. Of a line of 33 bytes or more it takes 33.
    pub(crate) fn take_line<F: Files>(
        &mut self,
        files: &mut F,
        name: &Text,
        piece: &mut [u8; MOST_TAKEN],
    ) -> Result<Option<usize>, ReadError>
        ensures same { F.held files.new ≡ F.held files.old }
        ensures read_later { F.read_faults files.old ≤ F.read_faults files.new }
        ensures quiet { (result ≡ Err ReadFault → ⊥) →
            F.read_faults files.new ≡ F.read_faults files.old }
        ensures write_quiet { F.write_faults files.new ≡ F.write_faults files.old }
        ensures fault { result ≡ Err ReadFault →
            Rose (F.read_faults files.old) (F.read_faults files.new) ⊎ Lacks (F.held files.old) name.now }
        ensures lacking { Lacks (F.held files.old) name.now → self.old.filled ≡ self.old.from → result ≡ Err ReadFault }
        ensures bound { IfOk result (λ line. IfSome line (λ n. n ≤ 33)) }
        ensures place { IfOk result (λ line.
            MatchOption line (self.new.place ≡ self.old.place) (λ _. self.old.place < self.new.place)) }
        ensures later { self.old.place ≤ self.new.place }
        ensures most { self.new.place ≤ self.old.place + 33 }
        ensures line { (file : List ℕ) → Holds (F.held files.old) name.now file → IsAhead file self.old →
            IfOk result (IsLineTaken file self.old.place self.new.place piece.new) }
        ensures ahead { (file : List ℕ) → Holds (F.held files.old) name.now file → IsAhead file self.old →
            OnOk result (IsAhead file self.new) }
    {
        let mut count = 0;
        while count < MOST_TAKEN {
            let Some(byte) = self.next_byte(files, name)? else {
                if count == 0 {
                    return Ok(None);
                }
                return Ok(Some(count));
            };
            if byte == b'\n' {
                return Ok(Some(count));
            }
            piece[count] = byte;
            count += 1;
        }
        Ok(Some(count))
    }
}
