// The laws of refusals.
ghost use Rattle.project_netlists.specs.Laws.{MadeHasNetlists, RefusedHasNone, RefusedForOne};

/// What was made of a project shows that none of the errors but want of memory has its cause; where
/// one has, no other has, be it of another code, kernel or link. The function does nothing: its
/// contract is the law.
pub fn refusals_are_exact()
    ensures made { MadeHasNetlists }
    ensures none { RefusedHasNone }
    ensures one { RefusedForOne }
{}
