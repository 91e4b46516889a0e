// The machine of a building run: what it does now, what is waited for, and its state. Its stacks are
// its own, so that no source makes the program's stack deep.

use crate::task::{Part, Task};
use kernel_calls::Call;
use kernel_meaning::{Bindings, Declared, Stack, State, Value};
use mx_base::List;

/// A method that waits for another: its tasks, its variables, and the type of its result.
#[derive(Drop)]
pub struct Frame {
    pub tasks: Stack<Task>,
    pub variables: Bindings,
    pub wanted: Option<Declared>,
}

/// What is done now.
#[derive(Drop)]
pub enum Now {
    Eval(Part),
    Exec(Part),
    /// Braces stand for an array of this type.
    Braces(Part, Declared),
    Give(Value),
}

/// What a step did.
#[derive(Drop)]
pub enum Event {
    On,
    /// These calls are made, in this order.
    Makes(List<Call>),
    Ended,
}

/// A building run on its way.
#[derive(Drop)]
pub struct Machine {
    pub now: Now,
    pub tasks: Stack<Task>,
    pub callers: Stack<Frame>,
    /// The type of the result of the running method, where it gives one.
    pub wanted: Option<Declared>,
    pub state: State,
}
