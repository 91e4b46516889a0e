// Why a source has no project.
ghost use Rattle.std.specs.Prelude.{◌≡◌, Some, IfOk};
ghost use Rattle.project_build.specs.Lines.{said};

use kernel_eval::line_of;
use kernel_meaning::EvalError;
use manager_links::LinkError;
use mx_base::{NoMemory, Text};
use std::alloc::{AllocFailed, Global};
use stream_graph::GraphError;

/// Why a source has no project.
#[derive(Debug, Drop)]
pub enum ProjectError {
    /// E1 to E15: the run of the manager's constructor is refused, or the name of the only class is
    /// none of a kernel.
    Plan(EvalError),
    /// E1 to E15: the run of a kernel's constructor is refused.
    Kernel(EvalError),
    /// G1 to G4 and G6: what the run of this kernel's constructor makes is no kernel.
    Graph(Text, GraphError),
    /// P1 to P5 and P7 to P9: the kernels can't be joined as the manager asks.
    Links(LinkError),
    /// No memory was left.
    NoMemory,
}

impl ProjectError {
    /// The line that is said of the refusal: its code, with the places, names and numbers of the
    /// error. Want of memory says none.
    pub fn line(&self, alloc: Global) -> Result<Vec<u8>, NoMemory>
        ensures { IfOk result (λ line. said self.now ≡ Some line.items) }
    {
        match self {
            ProjectError::Plan(error) => line_of(alloc, *error),
            ProjectError::Kernel(error) => line_of(alloc, *error),
            ProjectError::Graph(kernel, error) => error.line(alloc, kernel),
            ProjectError::Links(error) => error.line(alloc),
            ProjectError::NoMemory => Err(NoMemory),
        }
    }
}

impl From<NoMemory> for ProjectError {
    ghost from_gives = { λ _ e. e ≡ NoMemory };

    ghost use Rattle.project_build.specs.declared.error.ProjectError.TheVariants.{NoMemory};

    fn from(_: NoMemory) -> Self {
        ProjectError::NoMemory
    }
}

impl<T: Drop> From<AllocFailed<T>> for ProjectError {
    ghost from_gives = { λ _ e. e ≡ NoMemory };

    ghost use Rattle.project_build.specs.declared.error.ProjectError.TheVariants.{NoMemory};

    fn from(_: AllocFailed<T>) -> Self {
        ProjectError::NoMemory
    }
}
