// The modes of rounding that are set and taken back.
ghost use Rattle.std.specs.Prelude.{◌≡◌, ◌∷◌, OnOk, OnErr};
ghost use Rattle.kernel_meaning.specs.LibraryRows as Rows;
ghost use Rattle.kernel_meaning.specs.Outcomes as Outcomes;
ghost use Rattle.kernel_meaning.specs.StreamRows.{mode_of};
ghost use Rattle.kernel_rows.specs.Given.{IsGiven};

use fix_arith::RoundMode;
use kernel_meaning::{EvalError, State, Value};

/// `optimization.popRoundingMode()`: the mode that was set before is the mode again.
///
/// Its error is `PopEmpty` where none was set.
pub fn pop_rounding(at: u32, state: &mut State) -> Result<Value, EvalError>
    ensures done { IsGiven state.new (Rows.pop at state.old.modes state.old) result }
    ensures err { OnErr result (state.new ≡ state.old) }
{
    match state.modes.pop() {
        Some(_) => Ok(Value::Nothing),
        None => Err(EvalError::PopEmpty(at)),
    }
}

/// `optimization.pushRoundingMode(mode)`: this is the mode. Without memory nothing changes.
pub fn push_rounding(mode: RoundMode, state: &mut State) -> Result<Value, EvalError>
    ensures done { IsGiven state.new
        (Outcomes.gives Value.Nothing (record state.old { modes = mode ∷ state.old.modes })) result }
    ensures err { OnErr result (state.new ≡ state.old) }
{
    state.modes.push(mode)?;
    Ok(Value::Nothing)
}

/// The mode that was set last, or rounding to the nearest with ties to the even number.
pub fn mode(state: &State) -> RoundMode
    ensures { result ≡ mode_of state.now.modes }
{
    match state.modes.as_slice().last() {
        Some(mode) => *mode,
        None => RoundMode::ToNearEven,
    }
}
