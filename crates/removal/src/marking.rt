// Ids of a list that rises marked, where they are among others in any order. A mark is a bit.
ghost use Rattle.std.specs.Prelude.{ℕ, ◌-◌, ◌*◌, ◌≤◌, ◌<◌, ◌≡◌, true, List, [], ◌∷◌, ◌++◌, map, length, take, drop};
ghost use Rattle.message.specs.Bound.{big_endian};
ghost use Rattle.message.specs.Code.{ids_in};
ghost use Rattle.table.specs.Lists.{rising};
ghost use Rattle.ends.specs.Lists.{some, same};
ghost use Rattle.removal.specs.Removing.{bits_in, named, present};

use crate::bits::{fitting, set_bit};
use crate::hints::Hints;
use index::filter::next_inside;
use sortedids::place::known;
use table::compare::word;

// Sets the mark of the id that begins a slice, if it is in the list; whether it is.
fn mark_one(hints: &Hints, id: &[u8], marks: &mut [u8]) -> bool
    requires { (32 ≤ length id.now) × (hints.now.count ≤ length marks.old * 8) }
    ensures value { result ≡ some (same (take 32 id.now)) (ids_in hints.now.count hints.now.list.now) }
    ensures by_index { (us : List (List ℕ)) → take hints.now.count (bits_in marks.old) ≡ named us (ids_in hints.now.count hints.now.list.now) → take hints.now.count (bits_in marks.new) ≡ named (us ++ (take 32 id.now ∷ [])) (ids_in hints.now.count hints.now.list.now) }
{
    let first = word(id, 0);
    let place = hints.place(id, first);
    let found = known(hints.list, hints.count, id, first, place);
    if found {
        set_bit(marks, place);
    }
    found
}

// Sets the marks of the list's ids that are among the m ids that begin a slice; how many of these m are ids of the list. Ids whose first words lie outside of the list's
// are stepped over.
fn mark_inside(hints: &Hints, ids: &[u8], m: usize, marks: &mut [u8]) -> usize
    requires { (m * 32 ≤ length ids.now) × (hints.now.count ≤ length marks.old * 8) × (take hints.now.count (bits_in marks.old) ≡ named [] (ids_in hints.now.count hints.now.list.now)) }
    ensures value { result ≡ length (present (ids_in m ids.now) (ids_in hints.now.count hints.now.list.now)) }
    ensures marks_after { take hints.now.count (bits_in marks.new) ≡ named (ids_in m ids.now) (ids_in hints.now.count hints.now.list.now) }
{
    let mut found = 0;
    let mut j = next_inside(ids, 0, m, hints.low, hints.high);
    // No `for`: `next_inside` steps over ids.
    while j < m {
        if mark_one(hints, &ids[j * 32..], marks) {
            found += 1;
        }
        j = next_inside(ids, j + 1, m, hints.low, hints.high);
    }
    found
}

// As `mark_all`, for ids that have room in one window of hints.
fn mark_window(
    list: &[u8],
    count: usize,
    ids: &[u8],
    m: usize,
    ends: &mut [u32],
    marks: &mut [u8],
) -> usize
    requires { (0 < count) × (count * 32 ≤ length list.now) × (m * 32 ≤ length ids.now) × (count ≤ length marks.old * 8) × (rising (map (big_endian 32) (ids_in count list.now)) ≡ true) }
    ensures value { result ≡ length (present (ids_in m ids.now) (ids_in count list.now)) }
    ensures marks_after { take count (bits_in marks.new) ≡ named (ids_in m ids.now) (ids_in count list.now) }
{
    marks.fill(0);
    let hints = Hints::new(list, count, ends, m);
    mark_inside(&hints, ids, m, marks)
}

// The marks of the `count` ids that begin the list: 1 where the id is one of the m ids that begin a slice, otherwise 0; how many of these m are ids of the list. The list is
// passed in windows, each of eight ids for a hint, so that a search stays where memory is near.
pub(crate) fn mark_all(
    list: &[u8],
    count: usize,
    ids: &[u8],
    m: usize,
    ends: &mut [u32],
    marks: &mut [u8],
) -> usize
    requires { (count * 32 ≤ length list.now) × (m * 32 ≤ length ids.now) × (count ≤ length marks.old * 8) × (rising (map (big_endian 32) (ids_in count list.now)) ≡ true) × (0 < length ends.old) }
    ensures value { result ≡ length (present (ids_in m ids.now) (ids_in count list.now)) }
    ensures marks_after { take count (bits_in marks.new) ≡ named (ids_in m ids.now) (ids_in count list.now) }
{
    let mut found = 0;
    let mut lo = 0;
    // No `for`: `fitting` says how long each step is.
    while lo < count {
        let n = fitting(count - lo, ends.len());
        found += mark_window(&list[lo * 32..], n, ids, m, ends, &mut marks[lo / 8..]);
        lo += n;
    }
    found
}
