// What a building run changes.
use crate::{Bindings, Declared, Plan, Stack, Value};
use fix_arith::RoundMode;
use mx_base::{List, Text};

/// A variable, with its type and its value.
#[derive(Drop)]
pub struct Binding {
    pub name: Text,
    pub of: Declared,
    pub value: Value,
}

/// A digit of a chain: the number of the chain's node, and the digit's bits.
#[derive(Clone, Copy, PartialEq, Eq)]
pub struct Digit {
    pub chain: u32,
    pub bits: u8,
}

/// What a building run changes.
#[derive(Drop)]
pub struct State {
    /// The variables of the running method, the newest first.
    pub variables: Bindings,
    pub fields: Bindings,
    /// The elements of each array. A value names its array by number, so arrays are shared.
    pub arrays: List<List<Value>>,
    /// The digits of all chains, the newest first.
    pub digits: Stack<Digit>,
    /// The rounding modes that were set, the newest first.
    pub modes: Stack<RoundMode>,
    /// How many steps are left.
    pub left: u32,
    /// How many nodes were made.
    pub made: u32,
    /// What a manager has built so far.
    pub plan: Plan,
}
