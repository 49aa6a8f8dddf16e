// Ids taken out of a list that rises, as the needed list does. The ids to be taken out stand in any order: each is searched in the list, and marked there. With d ids in
// the list, m to be taken out and h hints: m × log d comparisons, and m × (d / 8 h + 1) words looked at.
#![tactic(auto)]

ghost use Rattle.std.specs.Prelude.{◌+◌, ◌*◌, ◌≤◌, ◌<◌, ◌≡◌, true, length, take, drop};
ghost use mathlib.Core.List.{◌++◌, map, flatten};
ghost use Rattle.message.specs.Bound.{big_endian};
ghost use Rattle.message.specs.Code.{ids_in};
ghost use Rattle.table.specs.Lists.{rising};
ghost use Rattle.ends.specs.Lists.{overwrite};
ghost use Rattle.removal.specs.Removing.{bits_in, named, unmarked, without, present, Marked};

use crate::bits::{bit, count_bits, fitting};
use crate::marking::mark_all;

mod bits;
mod hints;
mod marking;

// How many of the ids to be taken out are ids of the list, and how many ids the list has without them.
#[derive(Clone, Copy)]
pub struct Tally {
    pub found: usize,
    pub left: usize,
}

// The tally of the first `count` ids of the list, and their marks.
fn survey_block(
    list: &[u8],
    count: usize,
    ids: &[u8],
    m: usize,
    ends: &mut [u32],
    marks: &mut [u8],
) -> Tally
    requires { (count * 32 ≤ length list.now) × (m * 32 ≤ length ids.now) × (count ≤ length marks.old * 8) × (rising (map (big_endian 32) (ids_in count list.now)) ≡ true) × (0 < length ends.old) }
    ensures found_value { (result.found ≡ length (present (ids_in m ids.now) (ids_in count list.now))) × (result.left ≡ length (without (ids_in m ids.now) (ids_in count list.now))) × (result.left ≤ count) }
    ensures marks_after { take count (bits_in marks.new) ≡ named (ids_in m ids.now) (ids_in count list.now) }
{
    let found = mark_all(list, count, ids, m, ends, marks);
    let left = count - count_bits(marks, count);
    Tally { found, left }
}

// As `survey`, for a list whose marks have no room all at once.
fn survey_blocks(
    list: &[u8],
    size: usize,
    ids: &[u8],
    m: usize,
    ends: &mut [u32],
    marks: &mut [u8],
) -> Tally
    requires { (size * 32 ≤ length list.now) × (m * 32 ≤ length ids.now) × (rising (map (big_endian 32) (ids_in size list.now)) ≡ true) × (0 < length ends.old) × (0 < length marks.old) }
    ensures { (result.found ≡ length (present (ids_in m ids.now) (ids_in size list.now))) × (result.left ≡ length (without (ids_in m ids.now) (ids_in size list.now))) }
{
    let mut found = 0;
    let mut left = 0;
    let mut lo = 0;
    // No `for`: `fitting` says how long each step is.
    while lo < size {
        let count = fitting(size - lo, marks.len());
        let block = survey_block(&list[lo * 32..], count, ids, m, ends, marks);
        found += block.found;
        left += block.left;
        lo += count;
    }
    Tally { found, left }
}

// How many of the m ids that begin a slice are ids of the list of `size` ids, and how many ids it has without them; and the marks of the list's ids, where they have room.
pub fn survey(
    list: &[u8],
    size: usize,
    ids: &[u8],
    m: usize,
    ends: &mut [u32],
    marks: &mut [u8],
) -> Tally
    requires { (size * 32 ≤ length list.now) × (m * 32 ≤ length ids.now) × (rising (map (big_endian 32) (ids_in size list.now)) ≡ true) × (0 < length ends.old) × (0 < length marks.old) }
    ensures found_value { (result.found ≡ length (present (ids_in m ids.now) (ids_in size list.now))) × (result.left ≡ length (without (ids_in m ids.now) (ids_in size list.now))) }
    ensures marked { Marked (ids_in m ids.now) list.now size marks.new }
{
    if fitting(size, marks.len()) < size {
        survey_blocks(list, size, ids, m, ends, marks)
    } else {
        survey_block(list, size, ids, m, ends, marks)
    }
}

// Of the `count` ids from place `lo` on, those whose mark is 0 move to place `kept` and on; how many ids there are then up to them.
fn keep_unmarked(list: &mut [u8], mut kept: usize, lo: usize, count: usize, marks: &[u8]) -> usize
    requires { (kept ≤ lo) × ((lo + count) * 32 ≤ length list.old) × (count ≤ length marks.now * 8) }
    ensures value { result ≡ kept + length (unmarked (take count (bits_in marks.now)) (ids_in count (drop (lo * 32) list.old))) }
    ensures list_after { list.new ≡ take (kept * 32) list.old ++ overwrite (flatten (unmarked (take count (bits_in marks.now)) (ids_in count (drop (lo * 32) list.old)))) (drop (kept * 32) list.old) }
{
    for k in 0..count {
        if bit(marks, k) == 0 {
            let from = (lo + k) * 32;
            list.copy_within(from..from + 32, kept * 32);
            kept += 1;
        }
    }
    kept
}

// Of the `count` ids from place `lo` on, those that are none of the m ids that begin a slice move to place `kept` and on; how many ids there are then up to them.
fn keep_in_block(
    list: &mut [u8],
    kept: usize,
    lo: usize,
    count: usize,
    ids: &[u8],
    m: usize,
    ends: &mut [u32],
    marks: &mut [u8],
) -> usize
    requires { (kept ≤ lo) × ((lo + count) * 32 ≤ length list.old) × (m * 32 ≤ length ids.now) × (count ≤ length marks.old * 8) × (rising (map (big_endian 32) (ids_in count (drop (lo * 32) list.old))) ≡ true) × (0 < length ends.old) }
    ensures value { result ≡ kept + length (without (ids_in m ids.now) (ids_in count (drop (lo * 32) list.old))) }
    ensures list_after { list.new ≡ take (kept * 32) list.old ++ overwrite (flatten (without (ids_in m ids.now) (ids_in count (drop (lo * 32) list.old)))) (drop (kept * 32) list.old) }
{
    mark_all(&list[lo * 32..], count, ids, m, ends, marks);
    keep_unmarked(list, kept, lo, count, marks)
}

// As `take_out`, for a list whose marks have no room all at once: they are made again.
fn take_out_blocks(
    list: &mut [u8],
    size: usize,
    ids: &[u8],
    m: usize,
    ends: &mut [u32],
    marks: &mut [u8],
) -> usize
    requires { (size * 32 ≤ length list.old) × (m * 32 ≤ length ids.now) × (rising (map (big_endian 32) (ids_in size list.old)) ≡ true) × (0 < length ends.old) × (0 < length marks.old) }
    ensures value { result ≡ length (without (ids_in m ids.now) (ids_in size list.old)) }
    ensures list_after { list.new ≡ overwrite (flatten (without (ids_in m ids.now) (ids_in size list.old))) list.old }
{
    let mut kept = 0;
    let mut lo = 0;
    // No `for`, as in `survey_blocks`.
    while lo < size {
        let count = fitting(size - lo, marks.len());
        kept = keep_in_block(list, kept, lo, count, ids, m, ends, marks);
        lo += count;
    }
    kept
}

// The m ids that begin a slice are taken out of the list of `size` ids, whose marks `survey` has made; how many are left. The bytes behind them stay as they were.
pub fn take_out(
    list: &mut [u8],
    size: usize,
    ids: &[u8],
    m: usize,
    ends: &mut [u32],
    marks: &mut [u8],
) -> usize
    requires { (size * 32 ≤ length list.old) × (m * 32 ≤ length ids.now) × (rising (map (big_endian 32) (ids_in size list.old)) ≡ true) × (0 < length ends.old) × (0 < length marks.old) × Marked (ids_in m ids.now) list.old size marks.old }
    ensures value { result ≡ length (without (ids_in m ids.now) (ids_in size list.old)) }
    ensures list_after { list.new ≡ overwrite (flatten (without (ids_in m ids.now) (ids_in size list.old))) list.old }
{
    if fitting(size, marks.len()) < size {
        take_out_blocks(list, size, ids, m, ends, marks)
    } else {
        keep_unmarked(list, 0, 0, size, marks)
    }
}
