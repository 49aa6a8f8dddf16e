// How the listed ids of a reply are spread over the words, their first eight bytes as numbers. By it the words are parted into intervals, each with about as
// many listed ids as a window has room for. The choice need not be right for the count to be: an interval with more ids takes more windows.
ghost use Rattle.std.specs.Prelude.{◌+◌, ◌*◌, ◌≤◌, ◌<◌, length};
ghost use Rattle.table.specs.Code.{lent};
ghost use Rattle.table.specs.Private.{Passed};
ghost use Rattle.walk.specs.Walking.{starts, Walking};

use index::buckets::{bucket, count_one};
use message::Payload;
use table::compare::word;
use walk::Walk;

// Counts a word from `low` on in its bucket. A count above 11,008 says that there are too many.
fn count_word(v: u64, low: u64, shift: usize, counts: &mut [usize])
    requires { shift < 64 }
{
    if low <= v {
        count_one(counts, bucket(v, low, shift), 11009);
    }
}

// The same for the words of a list of `count` ids at a place of the reply.
fn count_list(m: &[u8], count: usize, at: usize, low: u64, shift: usize, counts: &mut [usize])
    requires { (at + count * 32 ≤ length m.now) × (shift < 64) }
{
    for i in 0..count {
        count_word(word(m, at + i * 32), low, shift, counts);
    }
}

// The same for all ids that the reply lists.
fn count_listed(times: &[u64], own: &[u8], m: &[u8], low: u64, shift: usize, counts: &mut [usize])
    requires { Passed (lent times.now own.now) × Walking (lent times.now own.now) m.now starts × (shift < 64) }
{
    let mut walk = Walk::start();
    while walk.cursor.at < m.len() {
        let step = walk.step(m, times, own);
        walk = step.next;
        if let Payload::Ids { count, at } = step.payload {
            count_list(m, count, at, low, shift, counts);
        }
    }
}

// How many buckets, from the first on, have together fewer than 11,008 ids: a window of them is not full.
fn leading(counts: &[usize]) -> usize {
    let mut sum = 0;
    for (b, count) in counts.iter().enumerate() {
        if 11007 - sum < *count {
            return b;
        }
        sum += *count;
    }
    counts.len()
}

// The last word of b buckets from `low` on, and 2^64 - 1 where they reach so far. 1,024 buckets of 2^54 words are all words: their number becomes 0.
fn last_word(low: u64, b: usize, shift: usize) -> u64
    requires { shift < 64 }
    ensures { low ≤ result }
{
    low.saturating_add(((b as u64) << shift).wrapping_sub(1))
}

// The last word of an interval that begins at `low`: as many buckets as have room in a window, of 2^54 words each, or of fewer words where not even the first
// has room.
pub fn interval_end(times: &[u64], own: &[u8], m: &[u8], low: u64, counts: &mut [usize]) -> u64
    requires { Passed (lent times.now own.now) × Walking (lent times.now own.now) m.now starts }
    ensures { low ≤ result }
{
    for shift in [54, 44, 34, 24, 14, 4, 0] {
        counts.fill(0);
        count_listed(times, own, m, low, shift, counts);
        let b = leading(counts);
        if 0 < b {
            return last_word(low, b, shift);
        }
    }
    low
}
