// The law that a text says one report.
ghost use Rattle.schedule_report.specs.Law.{TextsDiffer};

/// Reports with one text are one report: so reading what was printed gives it back. The function does
/// nothing: its contract is the law.
pub fn texts_differ()
    ensures { TextsDiffer }
{}
