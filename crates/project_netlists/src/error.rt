// Why the kernels of a project have no modules, or its links are too deep.
ghost use Rattle.std.specs.Prelude.{◌≡◌, Some, IfOk};
ghost use Rattle.project_netlists.specs.Lines.{IsOfThese, said};

use kernel_netlist::NetlistError;
use kernel_schedule::ScheduleError;
use manager_links::{LinkError, Project};
use mx_base::{NoMemory, Text};
use std::alloc::Global;
use stream_graph::Kernel;

/// Why the kernels of a project have no modules, or its links are too deep. Kernels and links are
/// told by their numbers, from 0, in the order of the project.
#[derive(Debug, Drop)]
pub enum NetlistsError {
    /// L1, C1 and C2: the kernel of this number has no schedule.
    Schedule(u32, ScheduleError),
    /// B1: the FIFOs of each schedule of the kernel of this number hold at least so many bits, which
    /// are more than 2^28.
    TooManyBits(u32, u128),
    /// P6: the link of this number would hold so many words, which are more than 65,536.
    LinkTooDeep(u32, u64),
    /// No memory was left.
    NoMemory,
}

// The name of a kernel.
fn name_of(alloc: Global, kernel: &Kernel) -> Result<Text, NoMemory>
    ensures { IfOk result (λ name. name ≡ kernel.now.name) }
{
    Ok(Text::from_vec(kernel.name().to_vec(alloc)?))
}

impl NetlistsError {
    /// The line that is said of the refusal of this project: its code, and the name of the kernel
    /// with what is told of it, or the link and its words. Want of memory says none.
    pub fn line(&self, alloc: Global, project: &Project) -> Result<Vec<u8>, NoMemory>
        requires { IsOfThese project.now.kernels self.now }
        ensures { IfOk result (λ line. said project.now.kernels self.now ≡ Some line.items) }
    {
        match self {
            NetlistsError::Schedule(number, error) => {
                let kernel = &project.kernels()[*number as usize];
                error.line(alloc, &name_of(alloc, kernel)?)
            }
            NetlistsError::TooManyBits(number, bits) => {
                let kernel = &project.kernels()[*number as usize];
                NetlistError::TooManyBits(*bits).line(alloc, &name_of(alloc, kernel)?)
            }
            NetlistsError::LinkTooDeep(link, words) => {
                LinkError::LinkTooDeep(*link, *words).line(alloc)
            }
            NetlistsError::NoMemory => Err(NoMemory),
        }
    }
}

impl From<NoMemory> for NetlistsError {
    ghost from_gives = { λ _ e. e ≡ NoMemory };

    ghost use Rattle.project_netlists.specs.declared.error.NetlistsError.TheVariants.{NoMemory};

    fn from(_: NoMemory) -> Self {
        NetlistsError::NoMemory
    }
}
