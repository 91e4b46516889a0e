// An output of a run: a file of the words that left.
ghost use Rattle.std.specs.Prelude.{◌≡◌, ◌⊎◌, ◌≤◌, ◌<◌, ◌^◌, ℕ, List, [], Err, IfOk, OnOk, IfErr, IsSome};
ghost use Rattle.mx_base.specs.Counts.{Rose};
ghost use Rattle.mx_base.specs.Files.{Holds, Lacks, ChangesOnly};

use crate::stop::Stop;
use mx_base::{Files, Text};
use mx_bits::Word;
use std::alloc::Global;
use verilog_sim::Event;
use word_files::WordWriter;

/// An output of a run: the writer of its file, and the width of its words.
#[derive(Drop)]
pub(crate) struct Output {
    pub(crate) writer: WordWriter,
    pub(crate) width: u8,
    ghost same: { width ≡ writer.width },
}

impl Output {
    ghost use Rattle.simulation.specs.Outputs.{lines_of_words};
    ghost use Rattle.simulation.specs.Outward.{output_of, IsPut, with_moved};
    ghost use Rattle.simulation.specs.declared.stop.Stop.TheVariants as stops;

    /// Makes the file hold nothing.
    pub(crate) fn create<F: Files>(
        alloc: Global,
        files: &mut F,
        name: Text,
        width: u8,
    ) -> Result<Self, Stop>
        requires some { 1 ≤ width }
        requires at_most { width ≤ 128 }
        ensures named { IfOk result (λ made. output_of made ≡ (name, width)) }
        ensures made { IsSome (F.held files.old) → IfOk result (IsPut (F.held files.new) []) }
        ensures only { ChangesOnly name (F.held files.old) (F.held files.new) }
        ensures errors { IfErr result (λ e. (e ≡ stops.WriteFault) ⊎ (e ≡ stops.NoMemory)) }
        ensures read_quiet { F.read_faults files.new ≡ F.read_faults files.old }
        ensures quiet { (result ≡ Err stops.WriteFault → ⊥) → F.write_faults files.new ≡ F.write_faults files.old }
        ensures fault { result ≡ Err stops.WriteFault → Rose (F.write_faults files.old) (F.write_faults files.new) }
    {
        Ok(Output {
            writer: WordWriter::create(alloc, files, name, width)?,
            width,
        })
    }

    /// Puts the line of a word that left.
    pub(crate) fn put<F: Files>(&mut self, event: Event, files: &mut F) -> Result<(), Stop>
        requires word { event.word < 2 ^ self.old.width }
        requires held { Lacks (F.held files.old) self.old.writer.name → ⊥ }
        ensures named { output_of self.new ≡ output_of self.old }
        ensures put { (words : List ℕ) → IsPut (F.held files.old) words self.old →
            OnOk result (IsPut (F.held files.new) (with_moved words event) self.new) }
        ensures only { ChangesOnly self.old.writer.name (F.held files.old) (F.held files.new) }
        ensures errors { IfErr result (λ e. (e ≡ stops.WriteFault) ⊎ (e ≡ stops.NoMemory)) }
        ensures read_quiet { F.read_faults files.new ≡ F.read_faults files.old }
        ensures quiet { (result ≡ Err stops.WriteFault → ⊥) → F.write_faults files.new ≡ F.write_faults files.old }
        ensures fault { result ≡ Err stops.WriteFault → Rose (F.write_faults files.old) (F.write_faults files.new) }
    {
        if !event.moved {
            return Ok(());
        }
        let word = Word::new(event.word, self.width);
        self.writer.put(files, Some(word))?;
        Ok(())
    }

    /// Writes the lines that wait.
    pub(crate) fn flush<F: Files>(&mut self, files: &mut F) -> Result<(), Stop>
        requires { Lacks (F.held files.old) self.old.writer.name → ⊥ }
        ensures named { output_of self.new ≡ output_of self.old }
        ensures whole { (words : List ℕ) → IsPut (F.held files.old) words self.old →
            OnOk result (Holds (F.held files.new) self.old.writer.name (lines_of_words self.old.width words)) }
        ensures only { ChangesOnly self.old.writer.name (F.held files.old) (F.held files.new) }
        ensures errors { IfErr result (λ e. e ≡ stops.WriteFault) }
        ensures read_quiet { F.read_faults files.new ≡ F.read_faults files.old }
        ensures quiet { (result ≡ Err stops.WriteFault → ⊥) → F.write_faults files.new ≡ F.write_faults files.old }
        ensures fault { result ≡ Err stops.WriteFault → Rose (F.write_faults files.old) (F.write_faults files.new) }
    {
        self.writer.flush(files)?;
        Ok(())
    }
}
