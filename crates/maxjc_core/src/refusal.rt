// Why a command refuses its files.
ghost use Rattle.std.specs.Prelude.{◌≡◌, IfOk};
ghost use Rattle.maxjc_core.specs.CauseLines as causes;
ghost use Rattle.maxjc_core.specs.CauseLines.{line_of};
ghost use Rattle.maxjc_core.specs.ErrorCauses.{cause_told, IfCause};

use kernel_netlist::NetlistError;
use kernel_schedule::ScheduleError;
use latency_table::TableError;
use manager_links::LinkError;
use maxj_syntax::SourceError;
use mx_base::{NoMemory, Text};
use project_build::ProjectError;
use project_check::CheckError;
use refusal_line::{Value, refusal_line};
use simulation::Stop;
use std::alloc::Global;
use stream_expect::ExpectError;
use verilog_read::VerilogError;
use word_files::RunFileError;

/// Why a command refuses its files: a cause of its own, or the error of the crate that met it. No
/// command is refused by an error that says that a call failed or that memory was short.
#[derive(Drop)]
pub enum Refusal<'a> {
    /// F1: this file has more bytes than its limit.
    TooLarge(&'a Text),
    /// S1 to S6: the first fault of the source.
    Source(SourceError),
    /// T1 to T3: the first fault of the latency table.
    Table(TableError),
    /// E1 to E15, G1 to G4 and G6, P1 to P5 and P7 to P9: why the source builds no project.
    Project(ProjectError),
    /// L1, C1 and C2: why this kernel has no schedule by the latency table.
    Schedule(Text, ScheduleError),
    /// B1: the FIFOs of this kernel need so many bits.
    TooManyBits(Text, u128),
    /// P6: the link of this number would hold so many words.
    LinkTooDeep(u32, u64),
    /// L1, C1 and Q1 to Q5: why the report shows no least schedules of the project's kernels.
    Report(CheckError),
    /// V1 to V4: why the text isn't that of a design that can be run.
    Verilog(VerilogError),
    /// U1 and U2: why the run file isn't of its form, or doesn't fit the ports.
    RunFile(RunFileError),
    /// X1: the kernels have so many words in the run, one for each node in each tick.
    TooManyWords(u128),
    /// V5, U3 and U4: why the run stopped, or the first line of an input file that says no word.
    Run(Stop),
}

// The line of a kernel whose FIFOs need so many bits.
fn bits_line(alloc: Global, kernel: &Text, bits: u128) -> Result<Vec<u8>, NoMemory>
    ensures { IfOk result (λ line. line.items ≡ line_of (causes.TooManyBits kernel.now bits)) }
{
    NetlistError::TooManyBits(bits).line(alloc, kernel)
}

// The line of a link that would hold so many words.
fn depth_line(alloc: Global, link: u32, words: u64) -> Result<Vec<u8>, NoMemory>
    ensures { IfOk result (λ line. line.items ≡ line_of (causes.LinkTooDeep link words)) }
{
    LinkError::LinkTooDeep(link, words).line(alloc)
}

// The line of kernels that have so many words in a run.
fn words_line(alloc: Global, words: u128) -> Result<Vec<u8>, NoMemory>
    ensures { IfOk result (λ line. line.items ≡ line_of (causes.TooManyWords words)) }
{
    ExpectError::TooLarge(words).line(alloc)
}

impl<'a> Refusal<'a> {
    /// The line that is said: `refused`, the code and its values. There is none of an error that is
    /// no refusal.
    pub fn line(&self, alloc: Global) -> Result<Vec<u8>, NoMemory>
        ensures { IfOk result (λ line. IfCause (cause_told self.now) (λ cause. line.items ≡ line_of cause)) }
    {
        match self {
            Refusal::TooLarge(name) => refusal_line(alloc, "F1", &[Value::Name(name)]),
            Refusal::Source(error) => error.line(alloc),
            Refusal::Table(error) => error.line(alloc),
            Refusal::Project(error) => error.line(alloc),
            Refusal::Schedule(kernel, error) => error.line(alloc, kernel),
            Refusal::TooManyBits(kernel, bits) => bits_line(alloc, kernel, *bits),
            Refusal::LinkTooDeep(link, words) => depth_line(alloc, *link, *words),
            Refusal::Report(error) => error.line(alloc),
            Refusal::Verilog(error) => error.line(alloc),
            Refusal::RunFile(error) => error.line(alloc),
            Refusal::TooManyWords(words) => words_line(alloc, *words),
            Refusal::Run(stop) => stop.line(alloc),
        }
    }
}
