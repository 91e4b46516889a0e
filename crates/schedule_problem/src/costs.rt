// What times cost.
ghost use Rattle.std.specs.Prelude.{◌≡◌, ℕ, ◌<◌, ◌≤◌, ◌^◌, ◌-ℤ◌, length, unsigned_abs};
ghost use Rattle.cycle_find.specs.Constraints.{numbers_of};
ghost use Rattle.schedule_problem.specs.Flow.{cost_of, term_at, term_cost, TermsInRange};

use crate::problem::{Problem, Term};

/// What the times cost: the sum, over the terms, of the weight times the time from start to end, less
/// `base`.
pub fn cost(problem: &Problem, times: &[i64]) -> i128
    requires count { length problem.now.terms ≤ 2 ^ 20 }
    requires ends { TermsInRange (length times.now) problem.now.terms }
    requires within { (v : ℕ) → unsigned_abs (numbers_of times.now v) ≤ 2 ^ 61 }
    ensures { result ≡ cost_of problem.now (numbers_of times.now) }
{
    let terms = problem.terms.as_slice();
    let mut sum: i128 = 0;
    for t in 0..terms.len() {
        sum += price(terms, t, times);
    }
    sum - problem.base as i128
}

/// What one term costs.
fn price(terms: &[Term], t: usize, times: &[i64]) -> i128
    requires term { t < length terms.now }
    requires ends { TermsInRange (length times.now) terms.now }
    requires within { (v : ℕ) → unsigned_abs (numbers_of times.now v) ≤ 2 ^ 61 }
    ensures cost { result ≡ term_cost terms.now (numbers_of times.now) t }
    ensures small { unsigned_abs result ≤ 2 ^ 94 }
{
    let term = term_number(terms, t);
    term.weight as i128 * stretch(times, term.from as usize, term.to as usize)
}

/// The time from one node to another.
fn stretch(times: &[i64], from: usize, to: usize) -> i128
    requires from { from < length times.now }
    requires to { to < length times.now }
    requires within { (v : ℕ) → unsigned_abs (numbers_of times.now v) ≤ 2 ^ 61 }
    ensures time { result ≡ numbers_of times.now to -ℤ numbers_of times.now from }
    ensures small { unsigned_abs result ≤ 2 ^ 62 }
{
    times[to] as i128 - times[from] as i128
}

/// Term number `t`, from 0.
pub fn term_number(terms: &[Term], t: usize) -> Term
    requires { t < length terms.now }
    ensures { result ≡ term_at terms.now t }
{
    terms[t]
}
