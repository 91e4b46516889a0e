// Reading a file of words.
ghost use Rattle.std.specs.Prelude.{◌≡◌, ◌⊎◌, ◌≤◌, ◌<◌, ◌+◌, ◌^◌, ℕ, List, Option, slice_get};
ghost use Rattle.std.specs.Prelude.{is_some, not, true, false, if◌then◌else◌, Ok, IfOk, IfSome};
ghost use Rattle.std.specs.Prelude.{OnOk, OnErr, IsSome, Some, None};
ghost use Rattle.mx_base.specs.Counts.{Rose};
ghost use Rattle.mx_base.specs.Files.{Holds, Lacks};

use crate::WordError;
use crate::bytes::FileBytes;
use crate::hex::{is_below, parse_word};
use crate::lines::MOST_TAKEN;
use crate::refusal::Refusal;
use mx_base::{Files, NoMemory, ReadError, Text};
use mx_bits::Word;
use std::alloc::Global;

/// Reads a file of words, one a line: 1 to 32 hexadecimal digits of either case, ended by LF, which
/// the last line may lack. It holds a piece of the file, and never more than 33 bytes of a line.
///
/// After a refusal it reads no more, and answers that refusal again; likewise after the end of the
/// file. After want of memory nothing is said of what it answers next.
#[derive(Drop)]
pub struct WordReader {
    pub(crate) alloc: Global,
    pub(crate) name: Text,
    pub(crate) width: u8,
    pub(crate) bytes: FileBytes,
    pub(crate) lines: u64,
    pub(crate) ended: bool,
    pub(crate) refusal: Option<Refusal>,
    ghost some: { 1 ≤ width },
    ghost at_most: { width ≤ 128 },
    ghost counted: { lines ≤ bytes.place },
    ghost unrefused: { ended ≡ true → refusal ≡ None },
}

impl WordReader {
    ghost use Rattle.word_files.specs.Lines.{lines_of};
    ghost use Rattle.word_files.specs.WordFiles.{Follows, IsUnread, IsOfLine, Judges, Keeps, Answers, refusal_of};
    ghost use Rattle.word_files.specs.declared.error.WordError.TheVariants.{ReadFault, NoMemory as WantOfMemory};
    ghost use Rattle.word_files.specs.declared.refusal.Refusal.{Refusal};
    ghost use Rattle.word_files.specs.declared.refusal.Refusal.TheVariants as kept;

    /// A reader of the words of this width in this file.
    pub fn new(alloc: Global, name: Text, width: u8) -> Result<Self, NoMemory>
        requires some { 1 ≤ width }
        requires at_most { width ≤ 128 }
        ensures name { IfOk result (λ made. made.name ≡ name) }
        ensures width { IfOk result (λ made. made.width ≡ width) }
        ensures lines { IfOk result (λ made. made.lines ≡ 0) }
        ensures unrefused { IfOk result (λ made. made.refusal ≡ None) }
        ensures follows { (file : List ℕ) → IfOk result (Follows file) }
        ensures unread { IfOk result IsUnread }
    {
        Ok(WordReader {
            alloc,
            name,
            width,
            bytes: FileBytes::new(alloc)?,
            lines: 0,
            ended: false,
            refusal: None,
        })
    }

    /// The word of the next line; `None` at the end of the file. Errors: `BadLine` where the line
    /// isn't 1 to 32 hexadecimal digits; `WordRange` where its number has more bits than the words;
    /// `ReadFault` where a read failed or the file isn't held; and a refusal answered before.
    pub fn next<F: Files>(&mut self, files: &mut F) -> Result<Option<Word>, WordError>
        ensures same { F.held files.new ≡ F.held files.old }
        ensures read_later { F.read_faults files.old ≤ F.read_faults files.new }
        ensures quiet { (result ≡ Err ReadFault → ⊥) →
            F.read_faults files.new ≡ F.read_faults files.old }
        ensures write_quiet { F.write_faults files.new ≡ F.write_faults files.old }
        ensures name { self.new.name ≡ self.old.name }
        ensures width { self.new.width ≡ self.old.width }

        // Of a line at most 33 bytes are taken.
        ensures taken { self.new.bytes.place ≤ self.old.bytes.place + 33 }

        // A refusal that is kept is answered, and nothing is read.
        ensures again { (kept : Refusal) → self.old.refusal ≡ Some kept →
            Answers (refusal_of self.old.name kept) result }
        ensures stays { IsSome self.old.refusal → self.new ≡ self.old }
        ensures unread { IsSome self.old.refusal → files.new ≡ files.old }

        // The end that was answered is answered again, and nothing is read.
        ensures ended { IfOk result (λ word. self.new.ended ≡ not (is_some word)) }
        ensures end_again { self.old.ended ≡ true → result ≡ Ok None }
        ensures end_stays { self.old.ended ≡ true → self.new ≡ self.old }
        ensures end_unread { self.old.ended ≡ true → files.new ≡ files.old }

        // A refusal is kept exactly where it is answered.
        ensures kept { Keeps self.old.name self.new.refusal result }
        ensures fault { self.old.refusal ≡ None → result ≡ Err ReadFault →
            Rose (F.read_faults files.old) (F.read_faults files.new) ⊎ Lacks (F.held files.old) self.old.name }

        // Each word has the width. Of a file that isn't held nothing is read.
        ensures wide { IfOk result (λ word. IfSome word (λ w. w.width ≡ self.old.width)) }
        ensures lacking { Lacks (F.held files.old) self.old.name → IsUnread self.old → result ≡ Err ReadFault }

        // The line after those read decides, where the file is held.
        ensures line { (file : List ℕ) → Holds (F.held files.old) self.old.name file → Follows file self.old →
            IsOfLine self.old.name self.old.width (self.old.lines + 1) (slice_get (lines_of file) self.old.lines) result }
        ensures follows { (file : List ℕ) → Holds (F.held files.old) self.old.name file → Follows file self.old →
            OnOk result (Follows file self.new) }
        ensures lines { IfOk result (λ word.
            self.new.lines ≡ self.old.lines + (if is_some word then 1 else 0)) }
    {
        if let Some(refusal) = self.refusal {
            return Err(self.answer(refusal));
        }
        if self.ended {
            return Ok(None);
        }
        match self.next_word(files) {
            Ok(word) => Ok(word),
            Err(refusal) => {
                self.refusal = Some(refusal);
                Err(self.answer(refusal))
            }
        }
    }

    // The answer of a refusal.
    fn answer(&self, refusal: Refusal) -> WordError
        ensures refusal { (result ≡ refusal_of self.now.name refusal) ⊎ (result ≡ WantOfMemory) }
        ensures fault { refusal ≡ kept.ReadFault → result ≡ ReadFault }
    {
        match refusal {
            Refusal::ReadFault => WordError::ReadFault,
            Refusal::NoMemory => WordError::NoMemory,
            Refusal::BadLine(line) => match self.name.copy(self.alloc) {
                Ok(name) => WordError::BadLine(name, line),
                Err(NoMemory) => WordError::NoMemory,
            },
            Refusal::WordRange(line) => match self.name.copy(self.alloc) {
                Ok(name) => WordError::WordRange(name, line),
                Err(NoMemory) => WordError::NoMemory,
            },
        }
    }

    // The word of the next line, or why it is refused.
    fn next_word<F: Files>(&mut self, files: &mut F) -> Result<Option<Word>, Refusal>
        requires open { self.old.ended ≡ false }
        requires unrefused { self.old.refusal ≡ None }
        ensures same { F.held files.new ≡ F.held files.old }
        ensures read_later { F.read_faults files.old ≤ F.read_faults files.new }
        ensures quiet { (result ≡ Err kept.ReadFault → ⊥) →
            F.read_faults files.new ≡ F.read_faults files.old }
        ensures write_quiet { F.write_faults files.new ≡ F.write_faults files.old }
        ensures name { self.new.name ≡ self.old.name }
        ensures width { self.new.width ≡ self.old.width }
        ensures refusal { self.new.refusal ≡ self.old.refusal }
        ensures ended { IfOk result (λ word. self.new.ended ≡ not (is_some word)) }
        ensures open { OnErr result (self.new.ended ≡ false) }
        ensures taken { self.new.bytes.place ≤ self.old.bytes.place + 33 }
        ensures fault { result ≡ Err kept.ReadFault →
            Rose (F.read_faults files.old) (F.read_faults files.new) ⊎ Lacks (F.held files.old) self.old.name }
        ensures wide { IfOk result (λ word. IfSome word (λ w. w.width ≡ self.old.width)) }
        ensures lacking { Lacks (F.held files.old) self.old.name → IsUnread self.old → result ≡ Err kept.ReadFault }
        ensures line { (file : List ℕ) → Holds (F.held files.old) self.old.name file → Follows file self.old →
            Judges self.old.width (self.old.lines + 1) (slice_get (lines_of file) self.old.lines) result }
        ensures follows { (file : List ℕ) → Holds (F.held files.old) self.old.name file → Follows file self.old →
            OnOk result (Follows file self.new) }
        ensures lines { IfOk result (λ word.
            self.new.lines ≡ self.old.lines + (if is_some word then 1 else 0)) }
    {
        let mut line = [0; MOST_TAKEN];
        let count = match self.bytes.take_line(files, &self.name, &mut line) {
            Ok(Some(count)) => count,
            Ok(None) => {
                self.ended = true;
                return Ok(None);
            }
            Err(ReadError::ReadFault) => return Err(Refusal::ReadFault),
            Err(_) => return Err(Refusal::NoMemory),
        };
        self.lines += 1;
        let Some(bits) = parse_word(&line[..count]) else {
            return Err(Refusal::BadLine(self.lines));
        };
        if !is_below(bits, self.width) {
            return Err(Refusal::WordRange(self.lines));
        }
        Ok(Some(Word::new(bits, self.width)))
    }
}
