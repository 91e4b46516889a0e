// Why a command stops before it writes.
ghost use Rattle.std.specs.Prelude.{◌≡◌};

use crate::refusal::Refusal;
use mx_base::NoMemory;

/// Why a command stops before it writes.
#[derive(Drop)]
pub enum Stop<'a> {
    Refused(Refusal<'a>),
    ReadFault,
    NoMemory,
}

impl<'a> From<NoMemory> for Stop<'a> {
    ghost from_gives = { λ _ e. e ≡ NoMemory };

    ghost use Rattle.maxjc_core.specs.declared.stop.Stop.TheVariants.{NoMemory};

    fn from(_: NoMemory) -> Self {
        Stop::NoMemory
    }
}
