// Which variables may have a value.
ghost use Rattle.std.specs.Prelude.{◌≡◌, ℕ, Option};
ghost use Rattle.std.specs.Option.{option_map};
ghost use Rattle.kernel_meaning.specs.declared.value.Declared.{Declared as Kind};
ghost use Rattle.kernel_meaning.specs.Values as Values;

use kernel_meaning::{Base, Declared, Value};

// The type of the variables that may have a value: the base, and how many levels of arrays.
fn kind_of(value: &Value) -> Option<(Base, u64)>
    ensures { result ≡ option_map (λ (of : Kind). (of.base, of.rank)) (Values.kind_of value.now) }
{
    match value {
        Value::Nothing => None,
        Value::Int(_) => Some((Base::Int, 0)),
        Value::Flag(_) => Some((Base::Boolean, 0)),
        Value::Str(_) => Some((Base::Str, 0)),
        Value::Type(_) => Some((Base::StreamType, 0)),
        Value::Stream { .. } => Some((Base::Stream, 0)),
        Value::Chain(_) => Some((Base::Chain, 0)),
        Value::Array { of, .. } => Some((of.base, u64::from(of.rank) + 1)),
        Value::Literal { .. } => None,
        Value::Parameters => Some((Base::KernelParameters, 0)),
        Value::Engine => Some((Base::EngineParameters, 0)),
        Value::Block(_) => Some((Base::Block, 0)),
        Value::Link { .. } => Some((Base::Link, 0)),
    }
}

/// Whether a variable of this type may have the value.
pub fn has_kind(of: Declared, value: &Value) -> bool
    ensures { result ≡ Values.has_kind of value.now }
{
    match kind_of(value) {
        Some((base, rank)) => of.base == base && u64::from(of.rank) == rank,
        None => false,
    }
}
