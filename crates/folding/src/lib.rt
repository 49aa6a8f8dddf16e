// The calls that fold a batch into the opener's table once a session is done: items enter the table, and their ids leave the needed list. Neither has a `requires`: what is
// wrong with what it is lent, it answers with the number of the refusal, and then nothing has changed. The count of the marks and the label are not handed
// over, and stay what they are.
#![tactic(auto)]

ghost use Rattle.std.specs.Prelude.{IfOk, ℕ, ◌+◌, ◌*◌, ◌≤◌, ◌<◌, ◌≡◌, true, false, map, length};
ghost use Rattle.message.specs.Bound.{big_endian};
ghost use Rattle.message.specs.Code.{ids_in};
ghost use Rattle.table.specs.Answer.{answer, refuse_if};
ghost use Rattle.table.specs.Lists.{rising};
ghost use Rattle.table.specs.Table.{items};
ghost use Rattle.table.specs.Code.{lent};
ghost use Rattle.table.specs.Private.{Passed};
ghost use Rattle.ends.specs.Lists.{some};
ghost use Rattle.fold.specs.Fold.{front, cannot_hold, not_due, still_needed, inquired, committed};
ghost use Rattle.removal.specs.Removing.{Marked};
ghost use Rattle.label.specs.Label.{Label};
ghost use Rattle.folding.specs.Code.{inquiry_of, outcome_of, needed_by, lent_to};

use crate::check::{check_list, check_tables, holds};
use merging::common::some_common;
use merging::merge::merge;
use removal::{survey, take_out};
use table::Refusal;

mod check;

// What a commit would do: so many items would enter, and so many ids would stay needed.
#[derive(Clone, Copy)]
pub struct Inquiry {
    pub entering: usize,
    pub staying: usize,
}

// What a commit did: the table has so many items now, and so many ids are needed.
#[derive(Clone, Copy)]
pub struct Merged {
    pub count: usize,
    pub needed: usize,
}

// What an inquiry answers that checks 1, 2, 4 and 15 have passed: 16, 17, and what would enter and stay. The needed ids are marked.
fn inquire_checked(
    times: &[u64],
    ids: &[u8],
    count: usize,
    needed: &[u8],
    size: usize,
    fresh: &[u64],
    freshids: &[u8],
    ends: &mut [u32],
    marks: &mut [u8],
) -> Result<Inquiry, Refusal>
    requires { (cannot_hold count (lent times.now ids.now) ≡ false) × Passed (front count (lent times.now ids.now)) × Passed (lent fresh.now freshids.now) × (size * 32 ≤ length needed.now) × (rising (map (big_endian 32) (ids_in size needed.now)) ≡ true) × (0 < length ends.old) × (0 < length marks.old) }
    ensures needed_value { refuse_if 16 (some (not_due (ids_in size needed.now) (items (front count (lent times.now ids.now)))) (items (lent fresh.now freshids.now))) (refuse_if 17 (cannot_hold (count + length fresh.now) (lent times.now ids.now)) (answer (length (items (lent fresh.now freshids.now)), length (still_needed (items (lent fresh.now freshids.now)) (ids_in size needed.now))))) ≡ inquiry_of result }
    ensures marked { Marked (ids_in (length fresh.now) freshids.now) needed.now size marks.new }
{
    let entering = fresh.len();
    let tally = survey(needed, size, freshids, entering, ends, marks);
    if tally.found != entering
        || some_common(&times[..count], &ids[..count * 32], fresh, freshids)
    {
        return Err(Refusal::NotDue);
    }
    if !holds(times.len(), ids.len(), count + entering) {
        return Err(Refusal::TableFull);
    }
    Ok(Inquiry {
        entering,
        staying: tally.left,
    })
}

// As `inquire`, with room for hints and marks. Where a commit would be done, the needed ids are marked.
fn inquire_with(
    times: &[u64],
    ids: &[u8],
    count: usize,
    needed: &[u8],
    size: usize,
    done: bool,
    fresh: &[u64],
    freshids: &[u8],
    ends: &mut [u32],
    marks: &mut [u8],
) -> Result<Inquiry, Refusal>
    requires { (0 < length ends.old) × (0 < length marks.old) }
    ensures answer_value { (marked : ℕ) (label : Label) → inquired count (lent_to times.now ids.now needed.now marked label size done) (lent fresh.now freshids.now) ≡ inquiry_of result }
    ensures marked { IfOk result (λ i. Marked (ids_in (length fresh.now) freshids.now) needed.now size marks.new) }
{
    check_tables(times, ids, count, fresh, freshids)?;
    check_list(needed, size, done)?;
    inquire_checked(
        times, ids, count, needed, size, fresh, freshids, ends, marks,
    )
}

// As `inquire`, with room for E hints and for the marks of 8 M needed ids at a time. Not inlined: a short list is not to pay for a stack that has room for the large arrays.
#[inline(never)]
fn inquire_sized<const E: usize, const M: usize>(
    times: &[u64],
    ids: &[u8],
    count: usize,
    needed: &[u8],
    size: usize,
    done: bool,
    fresh: &[u64],
    freshids: &[u8],
) -> Result<Inquiry, Refusal>
    requires { (0 < E) × (E ≤ 1048576) × (0 < M) × (M ≤ 1048576) }
    ensures { (marked : ℕ) (label : Label) → inquired count (lent_to times.now ids.now needed.now marked label size done) (lent fresh.now freshids.now) ≡ inquiry_of result }
{
    let mut ends = [0u32; E];
    let mut marks = [0u8; M];
    inquire_with(
        times, ids, count, needed, size, done, fresh, freshids, &mut ends, &mut marks,
    )
}

// What a commit of the batch (`fresh`, `freshids`) into the table of `count` items would do, `size` ids being needed. It changes nothing. A short list needs no large
// arrays; in the large ones the marks of 1,048,576 ids have room.
pub fn inquire(
    times: &[u64],
    ids: &[u8],
    count: usize,
    needed: &[u8],
    size: usize,
    done: bool,
    fresh: &[u64],
    freshids: &[u8],
) -> Result<Inquiry, Refusal>
    ensures { (marked : ℕ) (label : Label) → inquired count (lent_to times.now ids.now needed.now marked label size done) (lent fresh.now freshids.now) ≡ inquiry_of result }
{
    if size <= 1024 {
        inquire_sized::<128, 128>(times, ids, count, needed, size, done, fresh, freshids)
    } else {
        inquire_sized::<16384, 131072>(times, ids, count, needed, size, done, fresh, freshids)
    }
}

// As `commit`, with room for hints and marks.
fn commit_with(
    times: &mut [u64],
    ids: &mut [u8],
    count: usize,
    needed: &mut [u8],
    size: usize,
    done: bool,
    fresh: &[u64],
    freshids: &[u8],
    ends: &mut [u32],
    marks: &mut [u8],
) -> Result<Merged, Refusal>
    requires { (0 < length ends.old) × (0 < length marks.old) }
    ensures { (marked : ℕ) (label : Label) → committed count (lent_to times.old ids.old needed.old marked label size done) (lent fresh.now freshids.now) ≡ record { answer = outcome_of result; lent = lent_to times.new ids.new needed.new marked label (needed_by size result) done } }
{
    let inquiry = inquire_with(
        times, ids, count, needed, size, done, fresh, freshids, ends, marks,
    )?;
    merge(times, ids, count, fresh, freshids);
    let left = take_out(needed, size, freshids, fresh.len(), ends, marks);
    Ok(Merged {
        count: count + inquiry.entering,
        needed: left,
    })
}

// As `commit`, with room for E hints and for the marks of 8 M needed ids at a time. Not inlined, as `inquire_sized`.
#[inline(never)]
fn commit_sized<const E: usize, const M: usize>(
    times: &mut [u64],
    ids: &mut [u8],
    count: usize,
    needed: &mut [u8],
    size: usize,
    done: bool,
    fresh: &[u64],
    freshids: &[u8],
) -> Result<Merged, Refusal>
    requires { (0 < E) × (E ≤ 1048576) × (0 < M) × (M ≤ 1048576) }
    ensures { (marked : ℕ) (label : Label) → committed count (lent_to times.old ids.old needed.old marked label size done) (lent fresh.now freshids.now) ≡ record { answer = outcome_of result; lent = lent_to times.new ids.new needed.new marked label (needed_by size result) done } }
{
    let mut ends = [0u32; E];
    let mut marks = [0u8; M];
    commit_with(
        times, ids, count, needed, size, done, fresh, freshids, &mut ends, &mut marks,
    )
}

// Merges the batch (`fresh`, `freshids`) into the table of `count` items, and takes its ids out of the needed list of `size` ids. The first refusal of 1, 2, 4 and 15 to 17
// changes nothing. Bytes behind the merged table and behind the needed list stay as they are.
pub fn commit(
    times: &mut [u64],
    ids: &mut [u8],
    count: usize,
    needed: &mut [u8],
    size: usize,
    done: bool,
    fresh: &[u64],
    freshids: &[u8],
) -> Result<Merged, Refusal>
    ensures { (marked : ℕ) (label : Label) → committed count (lent_to times.old ids.old needed.old marked label size done) (lent fresh.now freshids.now) ≡ record { answer = outcome_of result; lent = lent_to times.new ids.new needed.new marked label (needed_by size result) done } }
{
    if size <= 1024 {
        commit_sized::<128, 128>(times, ids, count, needed, size, done, fresh, freshids)
    } else {
        commit_sized::<16384, 131072>(times, ids, count, needed, size, done, fresh, freshids)
    }
}
