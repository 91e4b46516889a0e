// Writing a list of words.
ghost use Rattle.std.specs.Prelude.{◌≡◌, ◌⊎◌, ◌≤◌, ◌<◌, ◌^◌, Err, IfOk, IfErr, IfSome, OnOk, IsSome, option_map};
ghost use Rattle.mx_base.specs.Counts.{Rose};
ghost use Rattle.mx_base.specs.Files.{Holds, ChangesOnly};
ghost use Rattle.word_files.specs.declared.error.WordError.TheVariants.{WriteFault, NoMemory};
ghost use Rattle.word_lists.specs.Written.{word_lines, HaveWidth};

use mx_base::{Files, Text};
use mx_bits::Word;
use std::alloc::Global;
use word_files::{WordError, WordWriter};

/// Makes the file hold these words of a width of 1 to 128 bits, one a line: as many hexadecimal
/// digits in lower case as the width over 4 rounded up, each of them `x` where the word is
/// undefined. Errors: `WriteFault` where a write failed; `NoMemory`. After an error nothing is said
/// of that file alone.
pub fn write_words<F: Files>(
    alloc: Global,
    files: &mut F,
    name: &Text,
    width: u8,
    words: &[Option<u128>],
) -> Result<(), WordError>
    requires some { 1 ≤ width }
    requires at_most { width ≤ 128 }
    requires words { HaveWidth width words.now }
    ensures written { IsSome (F.held files.old) →
        OnOk result (Holds (F.held files.new) name.now (word_lines width words.now)) }
    ensures only { ChangesOnly name.now (F.held files.old) (F.held files.new) }
    ensures errors { IfErr result (λ e. (e ≡ WriteFault) ⊎ (e ≡ NoMemory)) }
    ensures read_quiet { F.read_faults files.new ≡ F.read_faults files.old }
    ensures write_later { F.write_faults files.old ≤ F.write_faults files.new }
    ensures quiet { (result ≡ Err WriteFault → ⊥) →
        F.write_faults files.new ≡ F.write_faults files.old }
    ensures fault { result ≡ Err WriteFault →
        Rose (F.write_faults files.old) (F.write_faults files.new) }
{
    let Ok(copy) = name.copy(alloc) else {
        return Err(WordError::NoMemory);
    };
    let mut writer = WordWriter::create(alloc, files, copy, width)?;
    for bits in words {
        writer.put(files, with_width(*bits, width))?;
    }
    writer.flush(files)
}

// The word of this width, where one is defined.
fn with_width(bits: Option<u128>, width: u8) -> Option<Word>
    requires some { 1 ≤ width }
    requires at_most { width ≤ 128 }
    requires fits { IfSome bits (λ b. b < 2 ^ width) }
    ensures bits { option_map (λ w. w.bits) result ≡ bits }
    ensures width { IfSome result (λ w. w.width ≡ width) }
{
    bits.map(|bits| Word::new(bits, width))
}
