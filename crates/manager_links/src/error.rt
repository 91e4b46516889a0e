// Why kernels can't be joined, or their links not be made.
ghost use Rattle.std.specs.Prelude.{◌≡◌, ◌∷◌, ◌++◌, [], Some, codes, IfOk};
ghost use Rattle.std.specs.Fmt.{decimal};
ghost use Rattle.refusal_line.specs.Lines.{refused};
ghost use Rattle.manager_links.specs.Refused.{shown, said};

use mx_base::{List, NoMemory, Text};
use refusal_line::{Value, refusal_line};
use std::alloc::{AllocError, AllocFailed, Global};

/// An end of a join, by names.
#[derive(Debug, Drop)]
pub enum EndName {
    /// A port: the name of its kernel, and its own.
    Port(Text, Text),
    /// A stream from or to the CPU.
    Cpu(Text),
}

/// Why the kernels of a plan can't be joined by it, or their links not be made.
#[derive(Debug, Drop)]
pub enum LinkError {
    /// P1: a join names a port that its kernel lacks on that side: the kernel, and the port.
    UnknownPort(Text, Text),
    /// P2: a port of a kernel, or a stream of the CPU, stands in no join.
    Unlinked(EndName),
    /// P3: an end of a join stood in an earlier one.
    LinkedTwice(EndName),
    /// P4: the ends of a link have different types. This is the one that the words go to.
    TypeDiffers(EndName),
    /// P5: these kernels are linked in a loop, each to the next one and the last one to the first.
    KernelLoop(List<Text>),
    /// P6: the link of this number would hold so many words, which are more than 65,536.
    LinkTooDeep(u32, u64),
    /// P7: two kernels, two streams from the CPU or two streams to the CPU have this name.
    SameName(Text),
    /// P8: a join has streams of the CPU on both sides. This is the one that the words go to.
    HostToHost(Text),
    /// P9: there are so many kernels, none or more than 64.
    KernelCount(usize),
    /// No memory was left.
    NoMemory,
}

impl EndName {
    // The end in one word.
    fn word(&self, alloc: Global) -> Result<Text, NoMemory>
        ensures { IfOk result (λ word. word ≡ shown self.now) }
    {
        match self {
            EndName::Port(kernel, name) => {
                let mut word = kernel.copy(alloc)?;
                word.append(b".")?;
                word.append(name.as_bytes())?;
                Ok(word)
            }
            EndName::Cpu(name) => name.copy(alloc),
        }
    }
}

// The line of a code and an end.
fn end_line(alloc: Global, code: &str, end: &EndName) -> Result<Vec<u8>, NoMemory>
    ensures { IfOk result (λ line. line.items ≡ refused code.now (shown end.now ∷ [])) }
{
    let word = end.word(alloc)?;
    refusal_line(alloc, code, &[Value::Name(&word)])
}

impl LinkError {
    /// The line that is said of the refusal: its code, P1 to P9, and the names and numbers that
    /// tell where it stands. Want of memory says none.
    pub fn line(&self, alloc: Global) -> Result<Vec<u8>, NoMemory>
        ensures { IfOk result (λ line. said self.now ≡ Some line.items) }
    {
        match self {
            LinkError::UnknownPort(kernel, name) => {
                refusal_line(alloc, "P1", &[Value::Name(kernel), Value::Name(name)])
            }
            LinkError::Unlinked(end) => end_line(alloc, "P2", end),
            LinkError::LinkedTwice(end) => end_line(alloc, "P3", end),
            LinkError::TypeDiffers(end) => end_line(alloc, "P4", end),
            LinkError::KernelLoop(kernels) => {
                refusal_line(alloc, "P5", &[Value::Names(kernels.as_slice())])
            }
            LinkError::LinkTooDeep(link, words) => {
                let link = u64::from(*link);
                refusal_line(alloc, "P6", &[Value::Number(link), Value::Number(*words)])
            }
            LinkError::SameName(name) => refusal_line(alloc, "P7", &[Value::Name(name)]),
            LinkError::HostToHost(name) => refusal_line(alloc, "P8", &[Value::Name(name)]),
            LinkError::KernelCount(count) => {
                refusal_line(alloc, "P9", &[Value::Number(*count as u64)])
            }
            LinkError::NoMemory => Err(NoMemory),
        }
    }
}

impl From<NoMemory> for LinkError {
    ghost from_gives = { λ _ e. e ≡ NoMemory };

    ghost use Rattle.manager_links.specs.declared.error.LinkError.TheVariants.{NoMemory};

    fn from(_: NoMemory) -> Self {
        LinkError::NoMemory
    }
}

impl From<AllocError> for LinkError {
    ghost from_gives = { λ _ e. e ≡ NoMemory };

    ghost use Rattle.manager_links.specs.declared.error.LinkError.TheVariants.{NoMemory};

    fn from(_: AllocError) -> Self {
        LinkError::NoMemory
    }
}

impl<T: Drop> From<AllocFailed<T>> for LinkError {
    ghost from_gives = { λ _ e. e ≡ NoMemory };

    ghost use Rattle.manager_links.specs.declared.error.LinkError.TheVariants.{NoMemory};

    fn from(_: AllocFailed<T>) -> Self {
        LinkError::NoMemory
    }
}
