// The numbers by which the parts of a design name one another.
ghost use Rattle.std.specs.Prelude.{◌≡◌, ◌<◌, ◌^◌, ℕ};

use std::marker::Model;

/// The number of a net in its module, from 0. A contract sees the number alone.
#[derive(Clone, Copy, Debug, Default, PartialEq, Eq)]
pub struct NetId {
    number: u32,
}

impl Model for NetId {
    ghost Value = { ℕ };

    ghost view = { λ a. a.number };

    ghost invariant = { λ a. a.number < 2 ^ 32 };

    ghost inverse = { λ n. record { number = n } };
}

impl NetId {
    /// The net with this number.
    pub fn new(number: u32) -> Self
        ensures { result ≡ number }
    {
        NetId { number }
    }

    /// The number, as an index.
    pub fn index(self) -> usize
        ensures number { result ≡ self }
        ensures range { self < 2 ^ 32 }
    {
        self.number as usize
    }
}

/// The number of a memory in its module, from 0. A contract sees the number alone.
#[derive(Clone, Copy, Default, PartialEq, Eq)]
pub struct MemId {
    number: u32,
}

impl Model for MemId {
    ghost Value = { ℕ };

    ghost view = { λ a. a.number };

    ghost invariant = { λ a. a.number < 2 ^ 32 };

    ghost inverse = { λ n. record { number = n } };
}

impl MemId {
    /// The memory with this number.
    pub fn new(number: u32) -> Self
        ensures { result ≡ number }
    {
        MemId { number }
    }

    /// The number, as an index.
    pub fn index(self) -> usize
        ensures number { result ≡ self }
        ensures range { self < 2 ^ 32 }
    {
        self.number as usize
    }
}

/// The number of a module in its design, from 0. A contract sees the number alone.
#[derive(Clone, Copy, Default, PartialEq, Eq)]
pub struct ModuleId {
    number: u32,
}

impl Model for ModuleId {
    ghost Value = { ℕ };

    ghost view = { λ a. a.number };

    ghost invariant = { λ a. a.number < 2 ^ 32 };

    ghost inverse = { λ n. record { number = n } };
}

impl ModuleId {
    /// The module with this number.
    pub fn new(number: u32) -> Self
        ensures { result ≡ number }
    {
        ModuleId { number }
    }

    /// The number, as an index.
    pub fn index(self) -> usize
        ensures number { result ≡ self }
        ensures range { self < 2 ^ 32 }
    {
        self.number as usize
    }
}
