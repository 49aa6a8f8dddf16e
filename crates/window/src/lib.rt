// The ids that a reply adds to the needed list, in windows: the smallest of them from some id on, as many as have room, rising and without repeats. Each
// window is a walk over the whole reply. The words of the ids, their first eight bytes as numbers, are parted into intervals, and each window has ids of one
// interval only. For our own crates.
#![tactic(auto)]

ghost use Rattle.std.specs.Prelude.{◌≡◌, length};
ghost use Rattle.table.specs.Code.{lent};
ghost use Rattle.table.specs.Private.{Passed};
ghost use Rattle.index.specs.Lookup.{Room};
ghost use Rattle.index.specs.Sorting.{Worded};
ghost use Rattle.walk.specs.Walking.{starts, Walking};
ghost use Rattle.walk.specs.Adding.{added_from};
ghost use Rattle.window.specs.Windows.{limits, Floored, Picking, Windowed};

use crate::select::gather;
use index::sorting::{distinct, sort};

pub mod ceiling;
mod select;
pub mod spread;

// The ids that a window may have: their words are from `low` to `last`, they are above the id at place `floor`, which the first window of an interval does not
// have, and no higher than the id at place `ceiling`, where there is one.
#[derive(Clone, Copy)]
pub struct Interval {
    pub low: u64,
    pub last: u64,
    pub floor: Option<usize>,
    pub ceiling: Option<usize>,
}

// How many ids the window has, and whether there may be more behind it.
#[derive(Clone, Copy)]
pub struct Window {
    pub count: usize,
    pub full: bool,
}

// The next window: the places of its ids, rising, at the front of `pos`, and their words at the front of `words`. The ids are the
// smallest of those of the interval that the reply adds. `keys`, `places`, `found`, `ids` and `picks`
// are room for looking ids up.
pub fn next_window(
    times: &[u64],
    own: &[u8],
    m: &[u8],
    interval: Interval,
    words: &mut [u64],
    pos: &mut [usize],
    keys: &mut [u64],
    places: &mut [usize],
    found: &mut [u8],
    ids: &mut [u8],
    picks: &mut [usize],
) -> Window
    requires { Passed (lent times.now own.now) × Walking (lent times.now own.now) m.now starts × (length words.old ≡ 11008) × (length pos.old ≡ 11008) × Floored interval m.now × Room keys.old places.old found.old × Picking ids.old picks.old found.old }
    ensures { Windowed m.now (added_from (lent times.now own.now) m.now starts) (limits interval m.now) pos.new result × Worded m.now words.new pos.new result.count }
{
    let count = gather(
        times, own, m, interval, words, pos, keys, places, found, ids, picks,
    );
    sort(m, words, pos, count);
    let distinct = distinct(m, words, pos, count);
    Window {
        count: distinct,
        full: count == 11008,
    }
}
