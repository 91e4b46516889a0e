// The line that a design says that breaks a rule.
ghost use Rattle.std.specs.Prelude.{◌≡◌, ◌∷◌, [], Some, IfOk};
ghost use Rattle.rtl_check.specs.Lines.{rule_line, said};

use mx_base::{NoMemory, Text};
use refusal_line::{Value, refusal_line};
use rtl_ir::RtlError;
use std::alloc::Global;

/// The line that is said of the rule that a design breaks: the code, the number of the rule and the
/// names that break it. Want of memory says none.
pub fn line_of(alloc: Global, error: &RtlError) -> Result<Vec<u8>, NoMemory>
    ensures { IfOk result (λ line. said error.now ≡ Some line.items) }
{
    match error {
        RtlError::Unknown(name) => one_name(alloc, 1, name),
        RtlError::Width(name) => one_name(alloc, 2, name),
        RtlError::TwoDrivers(name) => one_name(alloc, 3, name),
        RtlError::CombLoop(names) => any_names(alloc, 4, names.as_slice()),
        RtlError::NoDriver(name) => one_name(alloc, 5, name),
        RtlError::SameName(name) => one_name(alloc, 6, name),
        RtlError::NoMemory => Err(NoMemory),
    }
}

/// The line of the rule of this number, which a name breaks.
fn one_name(alloc: Global, rule: u64, name: &Text) -> Result<Vec<u8>, NoMemory>
    ensures { IfOk result (λ line. line.items ≡ rule_line rule (name.now ∷ [])) }
{
    refusal_line(alloc, "V3", &[Value::Number(rule), Value::Name(name)])
}

/// The line of the rule of this number, which names break together.
fn any_names(alloc: Global, rule: u64, names: &[Text]) -> Result<Vec<u8>, NoMemory>
    ensures { IfOk result (λ line. line.items ≡ rule_line rule names.now) }
{
    refusal_line(alloc, "V3", &[Value::Number(rule), Value::Names(names)])
}
