// The checks of a batch, in their order.
ghost use Rattle.std.specs.Prelude.{ℕ, ◌*◌, ◌/◌, ◌%◌, ◌≡◌, not, ◌||◌, List, map, eqb, ltb, length};
ghost use Rattle.message.specs.Bound.{big_endian};
ghost use Rattle.message.specs.Code.{ids_in};
ghost use Rattle.table.specs.Answer.{answer, refuse_if};
ghost use Rattle.table.specs.Lists.{rising};
ghost use Rattle.table.specs.Table.{wrong_size, not_rising};
ghost use Rattle.table.specs.Code.{answer_of, lent};
ghost use Rattle.fold.specs.Fold.{front, cannot_hold, wrong_needed};
ghost use Rattle.label.specs.Label.{Label};
ghost use Rattle.folding.specs.Code.{lent_to};

use sortedids::order::ids_rise;
use table::Refusal;
use table::check::check_table;

// Whether buffers of so many times and id bytes hold n items, and these are not too many.
pub(crate) fn holds(times: usize, bytes: usize, n: usize) -> bool
    ensures { result ≡ not (ltb times n || ltb bytes (32 * n) || ltb 1048576 n) }
{
    n <= times && n <= 1048576 && n * 32 <= bytes
}

// Checks 1 and 2, each of the table of `count` items and of the batch.
pub(crate) fn check_tables(
    times: &[u64],
    ids: &[u8],
    count: usize,
    fresh: &[u64],
    freshids: &[u8],
) -> Result<(), Refusal>
    ensures { answer_of result ≡ refuse_if 1 (cannot_hold count (lent times.now ids.now) || wrong_size (lent fresh.now freshids.now)) (refuse_if 2 (not_rising (front count (lent times.now ids.now)) || not_rising (lent fresh.now freshids.now)) (answer tt)) }
{
    if !holds(times.len(), ids.len(), count) {
        return Err(Refusal::TableSize);
    }
    if 1048576 < fresh.len() || freshids.len() != fresh.len() * 32 {
        return Err(Refusal::TableSize);
    }
    // The sizes are right: what is refused now is the order.
    check_table(&times[..count], &ids[..count * 32])?;
    check_table(fresh, freshids)
}

// Whether the needed buffer has whole ids, at least `size`, and the first `size` of them rise.
fn needed_fits(needed: &[u8], size: usize) -> bool
    ensures { result ≡ not (not (eqb (length needed.now % 32) 0) || ltb (length needed.now / 32) size || not (rising (map (big_endian 32) (ids_in size needed.now)))) }
{
    needed.len() % 32 == 0 && size <= needed.len() / 32 && ids_rise(needed, size)
}

// Checks 4 and 15: the needed list of `size` ids, and whether the session is done.
#[tactic(auto, unfolding(fold::specs::Fold::wrong_needed))]
pub(crate) fn check_list(needed: &[u8], size: usize, done: bool) -> Result<(), Refusal>
    ensures { (times ids : List ℕ) (marked : ℕ) (label : Label) → answer_of result ≡ refuse_if 4 (wrong_needed (lent_to times ids needed.now marked label size done)) (refuse_if 15 (not done) (answer tt)) }
{
    if !needed_fits(needed, size) {
        return Err(Refusal::WrongState);
    }
    if !done {
        return Err(Refusal::SessionOpen);
    }
    Ok(())
}
