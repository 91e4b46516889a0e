// Why bytes are no report.
ghost use Rattle.std.specs.Prelude.{◌≡◌};

use mx_base::NoMemory;

/// Why bytes are no report.
#[derive(Debug, Drop)]
pub enum ReportError {
    /// The line of this number, from 1, is the first that no report has after the lines before it.
    Shape(u64),
    /// No memory was left.
    NoMemory,
}

impl From<NoMemory> for ReportError {
    ghost from_gives = { λ _ e. e ≡ NoMemory };

    ghost use Rattle.schedule_report.specs.declared.error.ReportError.TheVariants.{NoMemory};

    fn from(_: NoMemory) -> Self {
        ReportError::NoMemory
    }
}
