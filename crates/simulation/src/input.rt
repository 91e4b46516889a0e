// An input of a run: a file of words, of which at most one waits.
ghost use Rattle.std.specs.Prelude.{◌≡◌, ◌⊎◌, ◌≤◌, ◌<◌, ◌^◌, ℕ, List, false, None, Err, IfOk, IfErr, OnOk, OnErr, Some, IsSome};
ghost use Rattle.mx_base.specs.Counts.{Rose};
ghost use Rattle.mx_bits.specs.declared.word.Word.{Word as BitWord};

use crate::stop::Stop;
use mx_base::{Files, NoMemory, Text};
use mx_bits::Word;
use std::alloc::Global;
use verilog_sim::{Event, Offer};
use word_files::WordReader;

/// What stands at an input that offers no word.
pub(crate) const NOTHING: Offer = Offer {
    valid: false,
    word: 0,
};

/// An input of a run: the reader of its file, and the word read and not yet taken.
#[derive(Drop)]
pub(crate) struct Input {
    pub(crate) reader: WordReader,
    pub(crate) waiting: Option<Word>,
    ghost waits: { (w : BitWord) → waiting ≡ Some w → w.width ≡ reader.width },
}

impl Input {
    ghost use Rattle.simulation.specs.Errors.{IsReadStop};
    ghost use Rattle.simulation.specs.Inputs.{InputFile};
    ghost use Rattle.simulation.specs.Inward.{input_of, offer_of, IsAt, IsReady, HasEnded, Stops, IsBegun, IsTaken};
    ghost use Rattle.simulation.specs.declared.stop.Stop.TheVariants as stops;

    /// An input of this file, of which nothing is read.
    pub(crate) fn new(alloc: Global, name: Text, width: u8) -> Result<Self, NoMemory>
        requires some { 1 ≤ width }
        requires at_most { width ≤ 128 }
        ensures named { IfOk result (λ made. input_of made ≡ (name, width)) }
        ensures begins { IfOk result IsBegun }
    {
        Ok(Input {
            reader: WordReader::new(alloc, name, width)?,
            waiting: None,
        })
    }

    /// What the input offers in an edge: nothing where it stalls, and else the word that waits. Where
    /// none waits it reads its next line.
    pub(crate) fn look<F: Files>(&mut self, stalled: bool, files: &mut F) -> Result<Offer, Stop>
        requires unrefused { self.old.reader.refusal ≡ None }
        ensures same { F.held files.new ≡ F.held files.old }
        ensures quiet { (result ≡ Err stops.ReadFault → ⊥) → F.read_faults files.new ≡ F.read_faults files.old }
        ensures write_quiet { F.write_faults files.new ≡ F.write_faults files.old }
        ensures named { input_of self.new ≡ input_of self.old }
        ensures errors { IfErr result IsReadStop }
        ensures unrefused { OnOk result (self.new.reader.refusal ≡ None) }
        ensures fault { result ≡ Err stops.ReadFault →
            Rose (F.read_faults files.old) (F.read_faults files.new) ⊎ IsSome (F.held files.old) }
        ensures word { IfOk result (λ offer. offer.word < 2 ^ self.old.reader.width) }
        ensures free { OnErr result (stalled ≡ false) }

        // Where it stands in its file, what is behind its words, and why it stops.
        ensures stands { (f : InputFile) (left : List ℕ) → IsAt (F.held files.old) f left self.old →
            OnOk result (IsAt (F.held files.old) f left self.new) }
        ensures ready { (f : InputFile) (left : List ℕ) → IsAt (F.held files.old) f left self.old →
            IfOk result (IsReady (F.held files.old) stalled f left self.new) }
        ensures stopped { (f : InputFile) (left : List ℕ) → IsAt (F.held files.old) f left self.old →
            IfErr result (Stops (F.held files.old) (Rose (F.read_faults files.old) (F.read_faults files.new)) f left) }
    {
        if stalled {
            return Ok(NOTHING);
        }
        self.read(files)?;
        Ok(self.offer())
    }

    /// Reads the next line, where no word waits. A reader that met the end of its file reads no more.
    fn read<F: Files>(&mut self, files: &mut F) -> Result<(), Stop>
        requires unrefused { self.old.reader.refusal ≡ None }
        ensures same { F.held files.new ≡ F.held files.old }
        ensures quiet { (result ≡ Err stops.ReadFault → ⊥) → F.read_faults files.new ≡ F.read_faults files.old }
        ensures write_quiet { F.write_faults files.new ≡ F.write_faults files.old }
        ensures named { input_of self.new ≡ input_of self.old }
        ensures errors { IfErr result IsReadStop }
        ensures unrefused { OnOk result (self.new.reader.refusal ≡ None) }
        ensures fault { result ≡ Err stops.ReadFault →
            Rose (F.read_faults files.old) (F.read_faults files.new) ⊎ IsSome (F.held files.old) }
        ensures stands { (f : InputFile) (left : List ℕ) → IsAt (F.held files.old) f left self.old →
            OnOk result (IsAt (F.held files.old) f left self.new) }
        ensures ended { (f : InputFile) (left : List ℕ) → IsAt (F.held files.old) f left self.old →
            OnOk result (self.new.waiting ≡ None → IsSome (F.held files.old) → HasEnded f left) }
        ensures stopped { (f : InputFile) (left : List ℕ) → IsAt (F.held files.old) f left self.old →
            IfErr result (Stops (F.held files.old) (Rose (F.read_faults files.old) (F.read_faults files.new)) f left) }
    {
        if self.waiting.is_some() {
            return Ok(());
        }
        let word = self.reader.next(files)?;
        self.waiting = word;
        Ok(())
    }

    /// The word that waits, if one does.
    fn offer(&self) -> Offer
        ensures offer { result ≡ offer_of self.now.waiting }
        ensures word { result.word < 2 ^ self.now.reader.width }
    {
        match self.waiting {
            Some(word) => Offer {
                valid: true,
                word: word.bits(),
            },
            None => NOTHING,
        }
    }

    /// Drops the word that waits, where it moved.
    pub(crate) fn take(&mut self, event: Event)
        ensures { IsTaken event.moved self.old self.new }
    {
        if event.moved {
            self.waiting = None;
        }
    }
}
