// Why a call failed: no memory was left, or for a cause of its own.
ghost use Rattle.std.specs.Prelude.{◌≡◌, ◌↔◌};
ghost use Rattle.mx_base.specs.declared.fail.Fail.TheVariants.{NoMemory as WantOfMemory, Because};
ghost use Rattle.mx_base.specs.Failing.{IsMapped};

use crate::NoMemory;
use std::alloc::{AllocError, AllocFailed};

/// Why a call failed.
#[derive(Clone, Copy, Debug, Drop, PartialEq, Eq)]
pub enum Fail<E> {
    /// No memory was left.
    NoMemory,
    /// The call failed for this cause.
    Because(E),
}

impl<E> Fail<E> {
    /// The failure with the cause that `f` makes of its cause. Want of memory stays what it is, and
    /// comes from want of memory alone.
    pub fn map<F: FnOnce(E) -> C, C>(self, f: F) -> Fail<C>
        requires { (cause : E) → self ≡ Because cause → F.pre f cause }
        ensures mapped { IsMapped (F.post f) self result }
        ensures memory { (result ≡ WantOfMemory) ↔ (self ≡ WantOfMemory) }
    {
        match self {
            Fail::NoMemory => Fail::NoMemory,
            Fail::Because(cause) => Fail::Because(f(cause)),
        }
    }
}

impl<E> From<NoMemory> for Fail<E> {
    ghost from_gives = { λ _ e. e ≡ WantOfMemory };

    fn from(_: NoMemory) -> Self {
        Fail::NoMemory
    }
}

impl<E> From<AllocError> for Fail<E> {
    ghost from_gives = { λ _ e. e ≡ WantOfMemory };

    fn from(_: AllocError) -> Self {
        Fail::NoMemory
    }
}

impl<T: Drop, E> From<AllocFailed<T>> for Fail<E> {
    ghost from_gives = { λ _ e. e ≡ WantOfMemory };

    fn from(_: AllocFailed<T>) -> Self {
        Fail::NoMemory
    }
}
