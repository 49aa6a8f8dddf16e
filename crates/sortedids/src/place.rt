// The place of an id in a list that rises.
ghost use Rattle.std.specs.Prelude.{◌+◌, ◌*◌, ◌≤◌, ◌≡◌, true, map, ltb, length, take, drop};
ghost use Rattle.message.specs.Bound.{big_endian};
ghost use Rattle.message.specs.Code.{ids_in};
ghost use Rattle.table.specs.Lists.{rising};
ghost use Rattle.ends.specs.Lists.{some, same};
ghost use Rattle.sortedids.specs.Rank.{below};

use idlist::stands_at;
use table::compare::{id_below, word};

// Whether id number i of a list comes before the id that begins a slice, whose first eight bytes are `first`. Most ids differ in them.
pub fn comes_before(list: &[u8], i: usize, id: &[u8], first: u64) -> bool
    requires { (i * 32 + 32 ≤ length list.now) × (32 ≤ length id.now) × (first ≡ big_endian 8 id.now) }
    ensures { result ≡ ltb (big_endian 32 (take 32 (drop (i * 32) list.now))) (big_endian 32 (take 32 id.now)) }
{
    let p = i * 32;
    let other = word(list, p);
    other < first || other == first && id_below(&list[p..], id)
}

// How many of the first `size` ids come before the id that begins a slice, whose first eight bytes are `first`: its place among them, which lies from `lo` to `hi`.
pub fn place_between(
    list: &[u8],
    size: usize,
    id: &[u8],
    first: u64,
    mut lo: usize,
    mut hi: usize,
) -> usize
    requires { (size * 32 ≤ length list.now) × (32 ≤ length id.now) × (rising (map (big_endian 32) (ids_in size list.now)) ≡ true) × (first ≡ big_endian 8 id.now) × (lo ≤ below (take 32 id.now) (ids_in size list.now)) × (below (take 32 id.now) (ids_in size list.now) ≤ hi) × (hi ≤ size) }
    ensures { (result ≡ below (take 32 id.now) (ids_in size list.now)) × (result ≤ size) }
{
    while lo < hi {
        let mid = lo + (hi - lo) / 2;
        if comes_before(list, mid, id, first) {
            lo = mid + 1;
        } else {
            hi = mid;
        }
    }
    lo
}

// Whether the id that begins a slice is one of the first `size` ids, `place` being its place among them and `first` its first eight bytes.
pub fn known(list: &[u8], size: usize, id: &[u8], first: u64, place: usize) -> bool
    requires { (size * 32 ≤ length list.now) × (32 ≤ length id.now) × (rising (map (big_endian 32) (ids_in size list.now)) ≡ true) × (first ≡ big_endian 8 id.now) × (place ≡ below (take 32 id.now) (ids_in size list.now)) }
    ensures { result ≡ some (same (take 32 id.now)) (ids_in size list.now) }
{
    place < size && stands_at(list, place * 32, id, first)
}
