// The numbers of calls, of which a list names those that are to fail.
ghost use Rattle.std.specs.Prelude.{◌≡◌};
ghost use Rattle.mx_base.specs.Counts.{risen};
ghost use Rattle.mx_base.specs.Memory.{next_fails};

// Counts a call, and says whether it is one that is to fail.
pub(crate) fn count_call(calls: &mut u64, fails: &[u64]) -> bool
    ensures calls { calls.new ≡ risen calls.old }
    ensures fails { result ≡ next_fails fails.now calls.old }
{
    *calls = calls.saturating_add(1);
    let call = *calls;
    fails.iter().any(|n| *n == call)
}
