// How an expression is evaluated.
ghost use Rattle.std.specs.Prelude.{◌≡◌};
ghost use Rattle.kernel_meaning.specs.Ways as Ways;
ghost use Rattle.kernel_plans.specs.Forms.{form_view};

use crate::branch::Branch;
use maxj_syntax::NodeKind;

/// How an expression is evaluated.
#[derive(Clone, Copy, PartialEq, Eq)]
pub enum Form {
    /// By its condition.
    Choice,
    /// `&&`, or `||` where `either` holds: the first operand may decide.
    Short { either: bool },
    /// All operands first.
    AllOperands,
}

/// How the expression of this node is evaluated.
pub fn form_of(branch: &Branch<'_>) -> Form
    ensures { form_view result ≡ Ways.form_of branch.now.kind branch.now.word.now }
{
    match branch.kind {
        NodeKind::Cond => Form::Choice,
        NodeKind::Binary => binary_form(branch.word),
        _ => Form::AllOperands,
    }
}

fn binary_form(sign: &[u8]) -> Form
    ensures { form_view result ≡ Ways.form_of NodeKind.Binary sign.now }
{
    match sign {
        b"||" => Form::Short { either: true },
        b"&&" => Form::Short { either: false },
        _ => Form::AllOperands,
    }
}
