// Why a report shows no least schedules of kernels.
ghost use Rattle.std.specs.Prelude.{◌≡◌, ◌∷◌, [], Some, codes, IfOk};
ghost use Rattle.std.specs.Fmt.{decimal, signed_decimal};
ghost use Rattle.refusal_line.specs.Lines.{refused};
ghost use Rattle.project_check.specs.Refused.{said};

use itoa::Buffer;
use mx_base::{NoMemory, Text};
use offset_edges::EdgeError;
use refusal_line::{Value, refusal_line};
use std::alloc::{AllocError, AllocFailed, Global};

/// Why a report shows no least schedules of kernels. Lines are told by their numbers, from 1; arcs
/// are those of a kernel's problem, two for each edge; and nodes past the kernel's own are the times
/// up to which words are kept.
#[derive(Debug, Drop)]
pub enum CheckError {
    /// L1 and C1: the kernel of this name has no problem of schedules.
    Problem(Text, EdgeError),
    /// Q1: this line is the first that no report has after those before it.
    NoReport(u64),
    /// Q2: this line is the first that is none of a report on these kernels.
    Other(u64),
    /// Q3: the first arc that the report's times break, of this kernel.
    BrokenArc(Text, u32),
    /// Q4: the first node at which the report's flow is none, of this kernel.
    Unbalanced(Text, u32),
    /// Q5: what the report's times cost and its flow is worth, of this kernel.
    CostsDiffer(Text, i128, i128),
    /// No memory was left.
    NoMemory,
}

impl CheckError {
    /// The line that is said: `refused`, the code and its values. Want of memory says none.
    pub fn line(&self, alloc: Global) -> Result<Vec<u8>, NoMemory>
        ensures { IfOk result (λ line. said self.now ≡ Some line.items) }
    {
        match self {
            CheckError::Problem(kernel, error) => error.line(alloc, kernel),
            CheckError::NoReport(line) => refusal_line(alloc, "Q1", &[Value::Number(*line)]),
            CheckError::Other(line) => refusal_line(alloc, "Q2", &[Value::Number(*line)]),
            CheckError::BrokenArc(kernel, arc) => line_at(alloc, "Q3", kernel, *arc),
            CheckError::Unbalanced(kernel, node) => line_at(alloc, "Q4", kernel, *node),
            CheckError::CostsDiffer(kernel, cost, value) => {
                line_of_costs(alloc, kernel, *cost, *value)
            }
            CheckError::NoMemory => Err(NoMemory),
        }
    }
}

// The line of a refusal of this code at an arc or a node of a kernel.
fn line_at(alloc: Global, code: &str, kernel: &Text, place: u32) -> Result<Vec<u8>, NoMemory>
    ensures { IfOk result (λ line. line.items
        ≡ refused code.now (kernel.now ∷ decimal place ∷ [])) }
{
    let values = [Value::Name(kernel), Value::Number(u64::from(place))];
    refusal_line(alloc, code, &values)
}

// The line of what times of a kernel cost and a flow is worth.
fn line_of_costs(alloc: Global, kernel: &Text, cost: i128, value: i128) -> Result<Vec<u8>, NoMemory>
    ensures { IfOk result (λ line. line.items
        ≡ refused (codes "Q5") (kernel.now ∷ signed_decimal cost ∷ signed_decimal value ∷ [])) }
{
    let cost = number(alloc, cost)?;
    let value = number(alloc, value)?;
    let values = [Value::Name(kernel), Value::Name(&cost), Value::Name(&value)];
    refusal_line(alloc, "Q5", &values)
}

// A number in decimal digits, behind a `-` where it is below 0.
fn number(alloc: Global, number: i128) -> Result<Text, NoMemory>
    ensures { IfOk result (λ text. text ≡ signed_decimal number) }
{
    let mut digits = Buffer::new();
    Ok(Text::from_vec(digits.format(number).as_bytes().to_vec(alloc)?))
}

impl From<NoMemory> for CheckError {
    ghost from_gives = { λ _ e. e ≡ NoMemory };

    ghost use Rattle.project_check.specs.declared.error.CheckError.TheVariants.{NoMemory};

    fn from(_: NoMemory) -> Self {
        CheckError::NoMemory
    }
}

impl From<AllocError> for CheckError {
    ghost from_gives = { λ _ e. e ≡ NoMemory };

    ghost use Rattle.project_check.specs.declared.error.CheckError.TheVariants.{NoMemory};

    fn from(_: AllocError) -> Self {
        CheckError::NoMemory
    }
}

impl<T: Drop> From<AllocFailed<T>> for CheckError {
    ghost from_gives = { λ _ e. e ≡ NoMemory };

    ghost use Rattle.project_check.specs.declared.error.CheckError.TheVariants.{NoMemory};

    fn from(_: AllocFailed<T>) -> Self {
        CheckError::NoMemory
    }
}
