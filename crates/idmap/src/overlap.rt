// Whether lines make a good map: each within its bounds, and no two of them overlapping on either side.
ghost use Rattle.std.specs.Prelude.{◌≡◌};
ghost use Rattle.std.specs.List.{list_all};
ghost use Rattle.idmap.specs.Good.{bounded_of, apart_side, apart_of, good_of};

use crate::{Line, NO_ID};

// The most that a start and a count may add up to.
const MOST_SUM: u64 = NO_ID as u64;

// The count is over 0, and each start plus the count is at most 4,294,967,295.
#[tactic(auto, unfolding(crate::specs::Good::bounded_of, crate::specs::Good::fits_of))]
fn bounded(l: Line) -> bool
    ensures { result ≡ bounded_of l }
{
    0 < l.count
        && (l.inside as u64) + (l.count as u64) <= MOST_SUM
        && (l.parent as u64) + (l.count as u64) <= MOST_SUM
}

// Whether the `c` IDs from `a` on and the `d` IDs from `b` on have none in common.
#[tactic(auto, unfolding(crate::specs::Good::apart_side))]
fn apart_side(a: u32, c: u32, b: u32, d: u32) -> bool
    ensures { result ≡ apart_side a c b d }
{
    let end = (a as u64 + c as u64).min(b as u64 + d as u64);
    let start = (a as u64).max(b as u64);
    end <= start
}

// Whether two lines overlap neither on the inside nor on the parent side.
#[tactic(auto, unfolding(crate::specs::Good::apart_of))]
fn apart(l: Line, m: Line) -> bool
    ensures { result ≡ apart_of l m }
{
    apart_side(l.inside, l.count, m.inside, m.count)
        && apart_side(l.parent, l.count, m.parent, m.count)
}

// Whether `l` is apart from each of the lines.
fn clear(l: Line, lines: &[Line]) -> bool
    ensures { result ≡ list_all (λ m. apart_of l m) lines.now }
{
    lines.iter().all(|m| apart(l, *m))
}

// Whether the lines make a good map.
pub fn good(lines: &[Line]) -> bool
    ensures { result ≡ good_of lines.now }
{
    let mut left = lines;
    while let [l, rest @ ..] = left {
        if !bounded(*l) || !clear(*l, rest) {
            return false;
        }
        left = rest;
    }
    true
}
