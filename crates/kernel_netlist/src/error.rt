// Why a kernel has no module.
ghost use Rattle.std.specs.Prelude.{◌≡◌, ◌∷◌, [], Some, codes, IfOk};
ghost use Rattle.std.specs.Fmt.{decimal};
ghost use Rattle.refusal_line.specs.Lines.{refused};
ghost use Rattle.kernel_netlist.specs.Refused.{said};

use kernel_plan::PlanError;
use mx_base::{NoMemory, Text};
use refusal_line::{Value, refusal_line};
use std::alloc::Global;

/// Why a kernel that has a schedule has no module.
#[derive(Debug, Drop)]
pub enum NetlistError {
    /// B1: the FIFOs of each schedule hold at least so many bits, which are more than 2^28.
    TooManyBits(u128),
    /// No memory was left.
    NoMemory,
}

// The line of B1: the kernel and its bits.
fn line_of_bits(alloc: Global, kernel: &Text, bits: u128) -> Result<Vec<u8>, NoMemory>
    ensures { IfOk result (λ line.
        line.items ≡ refused (codes "B1") (kernel.now ∷ decimal bits ∷ [])) }
{
    let digits = Text::from_vec(format!(in alloc; "{bits}")?.into_bytes());
    refusal_line(alloc, "B1", &[Value::Name(kernel), Value::Name(&digits)])
}

impl NetlistError {
    /// The line that is said of the fault of a kernel of this name: B1, the kernel and its bits.
    /// Want of memory says none.
    pub fn line(&self, alloc: Global, kernel: &Text) -> Result<Vec<u8>, NoMemory>
        ensures { IfOk result (λ line. said kernel.now self.now ≡ Some line.items) }
    {
        match self {
            NetlistError::TooManyBits(bits) => line_of_bits(alloc, kernel, *bits),
            NetlistError::NoMemory => Err(NoMemory),
        }
    }
}

impl From<NoMemory> for NetlistError {
    ghost from_gives = { λ _ e. e ≡ NoMemory };

    ghost use Rattle.kernel_netlist.specs.declared.error.NetlistError.TheVariants.{NoMemory};

    fn from(_: NoMemory) -> Self {
        NetlistError::NoMemory
    }
}

impl From<PlanError> for NetlistError {
    ghost from_gives = { λ error e. e ≡ of_plan error };

    ghost use Rattle.kernel_netlist.specs.Refused.{of_plan};

    fn from(error: PlanError) -> Self {
        match error {
            PlanError::TooManyBits(bits) => NetlistError::TooManyBits(bits),
            PlanError::NoMemory => NetlistError::NoMemory,
        }
    }
}
