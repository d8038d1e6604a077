// Whether a range of IDs lies whole in one line of a map.
ghost use Rattle.std.specs.Prelude.{◌≡◌};
ghost use Rattle.idmap.specs.Line.{lines_in};
ghost use Rattle.idmap.specs.Ranges.{whole_by_reach};

use super::lookup::{in_range, lookup_parent};

// Whether the `count` IDs from `start` on lie whole in one line: the line that holds the first of them reaches to the
// last. Of no IDs it answers no. Linux: map_id_range_down.
#[tactic(auto, unfolding(crate::specs::Ranges::whole_by_reach, crate::specs::Lookup::reach_of))]
pub fn lies_whole(words: &[u64], start: u32, count: u32) -> bool
    ensures { result ≡ whole_by_reach (lines_in words.now) start count }
{
    let last = start.wrapping_add(count.wrapping_sub(1));
    let found = lookup_parent(words, start);
    in_range(last, start, found.reach)
}
