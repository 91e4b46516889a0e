// Assignments with an operator.
ghost use Rattle.std.specs.Prelude.{◌≡◌, ◌∷◌, [], OnErr};
ghost use Rattle.kernel_meaning.specs.Signs.{sign_of};
ghost use Rattle.kernel_meaning.specs.Ways as Ways;
ghost use Rattle.kernel_rows.specs.Fit.{IsFit, AreFit};
ghost use Rattle.kernel_rows.specs.Given.{IsDone};
ghost use Rattle.kernel_rows.specs.Kept.{IsKept, RowKeeps, combined_pair};

use crate::done::Done;
use crate::rows::row_of;
use crate::signs::sign_of;
use kernel_meaning::{EvalError, Row, Sign, State, Value};
use std::alloc::Global;

/// `place sign value`, as `+=`, of the values before and behind the sign. After an error the state
/// is as before.
///
/// Its errors are those of the operator, which is the sign's first byte, and `WrongKind` where that
/// is none.
pub fn combined(
    alloc: Global,
    sign: &[u8],
    at: u32,
    values: &[Value],
    state: &mut State,
) -> Result<Done, EvalError>
    requires fit { AreFit values.now }
    requires kept { IsKept state.old }
    ensures done { IsDone state.new (combined_pair sign.now at values.now state.old) result }
    ensures keeps { RowKeeps state.old state.new result }
    ensures err { OnErr result (state.new ≡ state.old) }
{
    match operator_of(sign) {
        Some(operator) => row_of(alloc, Row::Binary(operator), at, values, state),
        None => Err(EvalError::WrongKind(at)),
    }
}

// The operator that the first byte of a sign is.
#[tactic(auto, using(std::proofs::lemmas::List::take_min))]
fn operator_of(sign: &[u8]) -> Option<Sign>
    ensures { result ≡ sign_of (Ways.first_byte sign.now) }
{
    sign_of(&sign[..sign.len().min(1)])
}

/// `place++` and `place--`, of the value so far, which is a number. After an error the state is as
/// before.
///
/// Its errors are `NoMemory` and `WrongKind`.
pub fn stepped(
    alloc: Global,
    sign: &[u8],
    at: u32,
    value: Value,
    state: &mut State,
) -> Result<Done, EvalError>
    requires kept { IsKept state.old }
    ensures done { IsDone state.new (Ways.stepped sign.now at value state.old) result }
    ensures keeps { RowKeeps state.old state.new result }
    ensures err { OnErr result (state.new ≡ state.old) }
{
    match value {
        Value::Int(n) => combined(alloc, sign, at, &[Value::Int(n), Value::Int(1)], state),
        _ => Err(EvalError::WrongKind(at)),
    }
}
