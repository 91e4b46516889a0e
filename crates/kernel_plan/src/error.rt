// Why a kernel's module has no layout.
ghost use Rattle.std.specs.Prelude.{◌≡◌};

use mx_base::NoMemory;

/// Why a kernel's module has no layout.
#[derive(Debug, Drop)]
pub enum PlanError {
    /// The FIFOs of the schedule hold so many bits, which are more than 2^28.
    TooManyBits(u128),
    /// No memory was left.
    NoMemory,
}

impl From<NoMemory> for PlanError {
    ghost from_gives = { λ _ e. e ≡ NoMemory };

    ghost use Rattle.kernel_plan.specs.declared.error.PlanError.TheVariants.{NoMemory};

    fn from(_: NoMemory) -> Self {
        PlanError::NoMemory
    }
}
