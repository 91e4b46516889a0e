// Reads the files of `expect`, and answers what the stream equations say. No file is changed here.
ghost use Rattle.std.specs.Prelude.{◌≡◌, ◌⊎◌, ◌≤◌, ℕ, List, Err, IfOk, IfErr, length, IsSome};
ghost use Rattle.std.specs.List.{AllZip};
ghost use Rattle.mx_base.specs.Counts.{Rose};
ghost use Rattle.mx_base.specs.Files.{Lacks};
ghost use Rattle.maxjc_core.specs.CompileCauses.{file_limit};
ghost use Rattle.maxjc_core.specs.ExpectCauses.{IsFileTooLarge, ExpectStands, LacksFile, LacksExpected};
ghost use Rattle.maxjc_core.specs.ExpectStops.{AreRunInputs, AreWithin, AnswersAs, BeginsIn, CanWrite, IsAnswerOf, IsExpectedIn, IsReady, readings_in};
ghost use Rattle.maxjc_core.specs.InputWords.{HaveWords, IsFirstLineFault, LacksWords};
ghost use Rattle.maxjc_core.specs.NamedCommand.{expect_told};
ghost use Rattle.maxjc_core.specs.CompileStops.{IfRefused};
ghost use Rattle.stream_expect.specs.Widths.{HaveHostWidths};

use crate::begin::{Begun, begin};
use crate::check::{Inputs, read_inputs};
use crate::command::Expect;
use crate::expect_lines::expected_lines;
use crate::files::{FILE_LIMIT, read_file};
use crate::input_words::input_words;
use crate::project_run::run_of_plan;
use crate::stop::Stop;
use mx_base::{Files, List, NoMemory, Text};
use std::alloc::Global;
use std::mem;
use stream_expect::{ExpectError, Expected, expect};

/// What is written and said of a run: the output files in the order of the ports, with the width of
/// their words; the words of each, an undefined one as `None`; and the lines.
#[derive(Drop)]
pub struct Answer {
    pub outputs: List<(Text, u8)>,
    pub words: List<List<Option<u128>>>,
    pub lines: Vec<u8>,
}

/// The bytes of the files of `expect`.
#[derive(Drop)]
struct RunInputs {
    inputs: Inputs,
    run: Vec<u8>,
}

// Reads the files of a check and then a run file, each whole.
fn read_run_inputs<'a, F: Files>(
    alloc: Global,
    files: &mut F,
    names: Expect<'a>,
) -> Result<RunInputs, Stop<'a>>
    ensures same { F.held files.new ≡ F.held files.old }
    ensures quiet { (result ≡ Err Stop.ReadFault → ⊥) → F.read_faults files.new ≡ F.read_faults files.old }
    ensures write_quiet { F.write_faults files.new ≡ F.write_faults files.old }
    ensures fault { result ≡ Err Stop.ReadFault
        → Rose (F.read_faults files.old) (F.read_faults files.new)
        ⊎ LacksFile (expect_told names.entry) (F.held files.old) }
    ensures missing { LacksFile (expect_told names.entry) (F.held files.old)
        → (result ≡ Err Stop.ReadFault) ⊎ (result ≡ Err Stop.NoMemory) }
    ensures missing_quiet { Lacks (F.held files.old) names.entry.check.source.now
        → F.read_faults files.new ≡ F.read_faults files.old }
    ensures read { IfOk result (λ i. IsSome (F.held files.old)
        → AreRunInputs (expect_told names.entry) (F.held files.old) i.inputs.project.source.items
        i.inputs.project.table.items i.inputs.report.items i.run.items) }
    ensures fits { IfOk result (λ i. length i.inputs.project.source.items ≤ file_limit) }
    ensures refused { IfErr result (λ stop. IfRefused stop (λ cause. IsSome (F.held files.old)
        → IsFileTooLarge (expect_told names.entry) (F.held files.old) cause)) }
{
    let inputs = match read_inputs(alloc, files, names.check) {
        Ok(inputs) => inputs,
        Err(stop) => return Err(stop),
    };
    match read_file(alloc, files, names.run, FILE_LIMIT) {
        Ok(run) => Ok(RunInputs { inputs, run }),
        Err(stop) => Err(stop),
    }
}

// What the run begins with that the four files say, or why they are refused.
fn begin_files<'a, F: Files>(
    alloc: Global,
    files: &mut F,
    names: Expect<'a>,
) -> Result<Begun, Stop<'a>>
    ensures same { F.held files.new ≡ F.held files.old }
    ensures quiet { (result ≡ Err Stop.ReadFault → ⊥) → F.read_faults files.new ≡ F.read_faults files.old }
    ensures write_quiet { F.write_faults files.new ≡ F.write_faults files.old }
    ensures fault { result ≡ Err Stop.ReadFault
        → Rose (F.read_faults files.old) (F.read_faults files.new)
        ⊎ LacksFile (expect_told names.entry) (F.held files.old) }
    ensures missing { LacksFile (expect_told names.entry) (F.held files.old)
        → (result ≡ Err Stop.ReadFault) ⊎ (result ≡ Err Stop.NoMemory) }
    ensures missing_quiet { Lacks (F.held files.old) names.entry.check.source.now
        → F.read_faults files.new ≡ F.read_faults files.old }
    ensures ready { IfOk result IsReady }
    ensures begins { IfOk result (λ begun. IsSome (F.held files.old)
        → BeginsIn (expect_told names.entry) (F.held files.old) begun) }
    ensures refused { IfErr result (λ stop. IfRefused stop (λ cause. IsSome (F.held files.old)
        → ExpectStands (expect_told names.entry) (F.held files.old) cause)) }
{
    match read_run_inputs(alloc, files, names) {
        Ok(read) => begin(
            alloc,
            read.inputs.project.source.as_slice(),
            read.inputs.project.table.as_slice(),
            read.inputs.report.as_slice(),
            read.run.as_slice(),
        ),
        Err(stop) => Err(stop),
    }
}

// What the stream equations say of a run that begins with this, over these words.
fn expected_of(alloc: Global, begun: &Begun, words: List<List<u128>>) -> Result<Expected, NoMemory>
    requires ready { IsReady begun.now }
    requires within { AllZip AreWithin (readings_in begun.now) words }
    ensures is { IfOk result (IsExpectedIn begun.now words) }
    ensures widths { IfOk result (λ expected.
        HaveHostWidths begun.now.linked.project.joints.outputs expected.outputs) }
{
    let linked = &begun.linked;
    let run = run_of_plan(alloc, &linked.project, &begun.plan, words)?;
    match expect(
        alloc,
        &linked.project,
        linked.times.as_slice(),
        &linked.links,
        &run,
    ) {
        Ok(expected) => Ok(expected),
        Err(ExpectError::NoMemory) => Err(NoMemory),
        Err(ExpectError::TooLarge(_)) => unreachable!("the kernels have few words in the run"),
    }
}

// What is written and said of a run that begins with this, over these words. The names of its output
// files are taken out of the plan.
fn answer_of(alloc: Global, begun: &mut Begun, words: List<List<u128>>) -> Result<Answer, NoMemory>
    requires ready { IsReady begun.old }
    requires within { AllZip AreWithin (readings_in begun.old) words }
    ensures is { IfOk result (IsAnswerOf begun.old words) }
    ensures can_write { IfOk result (λ answer. CanWrite answer.outputs answer.words) }
{
    let expected = expected_of(alloc, begun, words)?;
    let lines = expected_lines(alloc, begun.linked.project.kernels(), &expected)?;
    let outputs = mem::replace(&mut begun.plan.outputs, List::new(alloc));
    Ok(Answer {
        outputs,
        words: expected.outputs,
        lines,
    })
}

// Reads the input files of a run that begins with this, and answers what is written and said of it.
// Apart from `answer_files`, which owns what the run begins with, so that no error here drops it.
fn answer_begun<'a, F: Files>(
    alloc: Global,
    files: &mut F,
    begun: &mut Begun,
) -> Result<Answer, Stop<'a>>
    requires { IsReady begun.old }
    ensures same { F.held files.new ≡ F.held files.old }
    ensures quiet { (result ≡ Err Stop.ReadFault → ⊥) → F.read_faults files.new ≡ F.read_faults files.old }
    ensures write_quiet { F.write_faults files.new ≡ F.write_faults files.old }
    ensures fault { result ≡ Err Stop.ReadFault
        → Rose (F.read_faults files.old) (F.read_faults files.new)
        ⊎ LacksWords (F.held files.old) (readings_in begun.old) }
    ensures missing { LacksWords (F.held files.old) (readings_in begun.old)
        → (result ≡ Err Stop.ReadFault) ⊎ (result ≡ Err Stop.NoMemory) }
    ensures answers { IfOk result (λ answer. IsSome (F.held files.old)
        → (words : List (List ℕ)) × HaveWords (F.held files.old) (readings_in begun.old) words
        × IsAnswerOf begun.old words answer) }
    ensures can_write { IfOk result (λ answer. CanWrite answer.outputs answer.words) }
    ensures refused { IfErr result (λ stop. IfRefused stop (λ cause. IsSome (F.held files.old)
        → IsFirstLineFault (F.held files.old) (readings_in begun.old) cause)) }
{
    match input_words(alloc, files, begun.linked.project.inputs(), &begun.plan) {
        Ok(words) => Ok(answer_of(alloc, begun, words)?),
        Err(stop) => Err(stop),
    }
}

/// Reads the files of `expect` and those of the inputs: what is written and said of the run that
/// they say. It changes no file.
pub fn answer_files<'a, F: Files>(
    alloc: Global,
    files: &mut F,
    names: Expect<'a>,
) -> Result<Answer, Stop<'a>>
    ensures same { F.held files.new ≡ F.held files.old }
    ensures quiet { (result ≡ Err Stop.ReadFault → ⊥) → F.read_faults files.new ≡ F.read_faults files.old }
    ensures write_quiet { F.write_faults files.new ≡ F.write_faults files.old }

    // A read fails only where its count rose or the file isn't held, and a source that isn't held is no fault.
    ensures fault { result ≡ Err Stop.ReadFault
        → Rose (F.read_faults files.old) (F.read_faults files.new)
        ⊎ LacksExpected (expect_told names.entry) (F.held files.old) }
    ensures missing { LacksExpected (expect_told names.entry) (F.held files.old)
        → (result ≡ Err Stop.ReadFault) ⊎ (result ≡ Err Stop.NoMemory) }
    ensures missing_quiet { Lacks (F.held files.old) names.entry.check.source.now
        → F.read_faults files.new ≡ F.read_faults files.old }

    ensures answers { IfOk result (λ answer. IsSome (F.held files.old)
        → AnswersAs (expect_told names.entry) (F.held files.old) answer) }
    ensures can_write { IfOk result (λ answer. CanWrite answer.outputs answer.words) }
    ensures refused { IfErr result (λ stop. IfRefused stop (λ cause. IsSome (F.held files.old)
        → ExpectStands (expect_told names.entry) (F.held files.old) cause)) }
{
    match begin_files(alloc, files, names) {
        Ok(mut begun) => answer_begun(alloc, files, &mut begun),
        Err(stop) => Err(stop),
    }
}
