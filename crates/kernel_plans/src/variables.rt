// Variables by their names.
ghost use Rattle.std.specs.Prelude.{◌≡◌};
ghost use Rattle.std.specs.Option.{option_copied};
ghost use Rattle.kernel_meaning.specs.Names as Names;

use kernel_meaning::{Binding, State};

/// The variable of a name: one of the method, or else a field.
pub fn variable<'a>(name: &[u8], state: &'a State) -> Option<&'a Binding>
    ensures { option_copied result ≡ Names.variable name.now state.now }
{
    match state.variables.newest(name) {
        Some(binding) => Some(binding),
        None => state.fields.newest(name),
    }
}
