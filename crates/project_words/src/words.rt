// The words of the nodes of kernels.
ghost use Rattle.std.specs.Prelude.{◌≡◌, ◌<◌, Some, length, slice_get};

use kernel_words::Streams;
use mx_base::List;

/// The words of all nodes of all kernels of a project in a run, kernel by kernel.
#[derive(Drop)]
pub struct ProjectWords {
    pub(crate) kernels: List<Streams>,
}

impl ProjectWords {
    /// The words of the nodes of the kernel of this number.
    pub fn of(&self, kernel: usize) -> &Streams
        requires { kernel < length self.now.kernels }
        ensures { slice_get self.now.kernels kernel ≡ Some result.now }
    {
        self.kernels.at(kernel)
    }
}
