// What a row makes.
ghost use Rattle.std.specs.Prelude.{◌≡◌, ◌∷◌, [], IfOk};

use kernel_calls::Call;
use kernel_meaning::Value;
use mx_base::{List, NoMemory};
use std::alloc::Global;

/// What a row makes: the calls in their order, and its value.
#[derive(Drop)]
pub struct Done {
    pub calls: List<Call>,
    pub value: Value,
}

impl Done {
    /// A value, and no call.
    pub fn value(alloc: Global, value: Value) -> Self
        ensures calls { result.calls ≡ [] }
        ensures value { result.value ≡ value }
    {
        Done {
            calls: List::new(alloc),
            value,
        }
    }

    /// A call, with this value.
    pub fn call(alloc: Global, call: Call, value: Value) -> Result<Self, NoMemory>
        ensures calls { IfOk result (λ done. done.calls ≡ call ∷ []) }
        ensures value { IfOk result (λ done. done.value ≡ value) }
    {
        let mut calls = List::new(alloc);
        calls.push(call)?;
        Ok(Done { calls, value })
    }
}
