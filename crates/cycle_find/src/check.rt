// The first constraint that given numbers break.
ghost use Rattle.std.specs.Prelude.{◌≡◌, ℕ, ◌<◌, ◌≤◌, ◌^◌, length, unsigned_abs, IfNone, IfSome};
ghost use Rattle.cycle_find.specs.Constraints.{numbers_of, Solves, EndsInRange};
ghost use Rattle.cycle_find.specs.Search.{IsFirstBroken};

use crate::arcs::Arcs;
use crate::search::arc_number;

/// The number of the first arc that the numbers, one per node, break, or `None` where they meet all.
pub fn solve_ok(arcs: &Arcs, x: &[i64]) -> Option<u32>
    requires count { length arcs.now.list < 2 ^ 32 }
    requires ends { EndsInRange arcs.now.nodes arcs.now.list }
    requires numbers { length x.now ≡ arcs.now.nodes }
    requires within { (v : ℕ) → unsigned_abs (numbers_of x.now v) ≤ 2 ^ 60 }
    ensures ok { IfNone result (Solves (numbers_of x.now) arcs.now.list) }
    ensures broken { IfSome result (IsFirstBroken (numbers_of x.now) arcs.now.list) }
{
    let list = arcs.list.as_slice();
    for j in 0..list.len() {
        let arc = arc_number(list, j);
        if x[arc.to as usize] - x[arc.from as usize] < arc.need {
            return Some(j as u32);
        }
    }
    None
}
