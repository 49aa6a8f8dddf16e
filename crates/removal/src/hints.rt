// The place of an id in a list that rises, by hints: where the ids end whose first eight bytes lie in one bucket. A hint is tried before it is used, so that none needs
// to be right.
ghost use Rattle.std.specs.Prelude.{ℕ, ◌-◌, ◌*◌, ◌≤◌, ◌<◌, ◌≡◌, true, map, length, take, drop, get_or};
ghost use Rattle.message.specs.Bound.{big_endian};
ghost use Rattle.message.specs.Code.{ids_in};
ghost use Rattle.table.specs.Lists.{rising};
ghost use Rattle.sortedids.specs.Rank.{below};

use index::buckets::{bucket, shift_for};
use sortedids::place::{comes_before, place_between};
use table::compare::word;

// The `count` ids that begin a list, whose first words lie from `low` to `high`, and where the ids of each bucket end, 0 where that is not noted.
#[derive(Clone, Copy)]
pub(crate) struct Hints<'a> {
    pub(crate) list: &'a [u8],
    pub(crate) count: usize,
    pub(crate) low: u64,
    pub(crate) high: u64,
    shift: usize,
    ends: &'a [u32],
    pub ghost some: { 0 < count },
    pub ghost inside: { count * 32 ≤ length list.now },
    pub ghost bytes: { (k : ℕ) → get_or list.now k 0 < 256 },
    pub ghost rises: { rising (map (big_endian 32) (ids_in count list.now)) ≡ true },
    pub ghost first: { low ≡ big_endian 8 list.now },
    pub ghost last: { high ≡ big_endian 8 (drop ((count - 1) * 32) list.now) },
    pub ghost few: { shift < 64 },
}

// The place behind the last id of each bucket that has one.
fn note_ends(list: &[u8], count: usize, low: u64, shift: usize, ends: &mut [u32])
    requires { (count * 32 ≤ length list.now) × (shift < 64) }
{
    for i in 0..count {
        let b = bucket(word(list, i * 32), low, shift);
        if let Some(end) = ends.get_mut(b) {
            *end = ((i + 1) % 4294967296) as u32;
        }
    }
}

// A bucket without an id ends where the one before it does.
fn fill_gaps(ends: &mut [u32]) {
    for b in 1..ends.len() {
        if ends[b] == 0 {
            ends[b] = ends[b - 1];
        }
    }
}

impl<'a> Hints<'a> {
    // For so many searches. Where the buckets end takes a pass over the list, which is worth its time only for many searches.
    pub(crate) fn new(list: &'a [u8], count: usize, ends: &'a mut [u32], searches: usize) -> Self
        requires { (0 < count) × (count * 32 ≤ length list.now) × (rising (map (big_endian 32) (ids_in count list.now)) ≡ true) }
        ensures { (result.list.now ≡ list.now) × (result.count ≡ count) }
    {
        let low = word(list, 0);
        let high = word(list, (count - 1) * 32);
        let shift = shift_for(low, high, ends.len());
        if searches >= count / 16 {
            ends.fill(0);
            note_ends(list, count, low, shift, ends);
            fill_gaps(ends);
        }
        Hints {
            list,
            count,
            low,
            high,
            shift,
            ends,
        }
    }

    // Where bucket b ends, if that is noted.
    fn end_of(&self, b: usize) -> Option<usize> {
        self.ends
            .get(b)
            .map(|end| *end as usize)
            .filter(|end| *end > 0)
    }

    // A hint for the place from which to search: where bucket b begins. Where that tells nothing, the end of the list: an id that lies behind it all is told by one
    // comparison.
    fn lower_hint(&self, b: usize) -> usize {
        b.checked_sub(1)
            .and_then(|before| self.end_of(before))
            .unwrap_or(self.count)
    }

    // A hint for the place up to which to search: where bucket b ends. Where that tells nothing, the start of the list.
    fn upper_hint(&self, b: usize) -> usize {
        self.end_of(b).filter(|end| *end < self.count).unwrap_or(0)
    }

    // A place not behind that of the id: the hint, if it is one.
    fn lower_end(&self, id: &[u8], first: u64, hint: usize) -> usize
        requires { (32 ≤ length id.now) × (first ≡ big_endian 8 id.now) }
        ensures { result ≤ below (take 32 id.now) (ids_in self.now.count self.now.list.now) }
    {
        if hint > 0 && hint <= self.count && comes_before(self.list, hint - 1, id, first) {
            hint
        } else {
            0
        }
    }

    // A place not before that of the id: the hint, if it is one.
    fn upper_end(&self, id: &[u8], first: u64, hint: usize) -> usize
        requires { (32 ≤ length id.now) × (first ≡ big_endian 8 id.now) }
        ensures { (below (take 32 id.now) (ids_in self.now.count self.now.list.now) ≤ result) × (result ≤ self.now.count) }
    {
        if hint < self.count && !comes_before(self.list, hint, id, first) {
            hint
        } else {
            self.count
        }
    }

    // How many ids of the list come before the id that begins a slice, whose first eight bytes are `first`: its place among them.
    pub(crate) fn place(&self, id: &[u8], first: u64) -> usize
        requires { (32 ≤ length id.now) × (first ≡ big_endian 8 id.now) }
        ensures { (result ≡ below (take 32 id.now) (ids_in self.now.count self.now.list.now)) × (result ≤ self.now.count) }
    {
        let b = bucket(first, self.low, self.shift);
        let lo = self.lower_end(id, first, self.lower_hint(b));
        let hi = self.upper_end(id, first, self.upper_hint(b));
        place_between(self.list, self.count, id, first, lo, hi)
    }
}
