// A ceiling for the windows of a single word, which may have more listed ids than a window has room for. Without it nearly every id of a falling list would be
// wanted for a while, and be looked up, in each window anew.
ghost use Rattle.std.specs.Prelude.{◌+◌, ◌*◌, ◌≤◌, ◌≡◌, length};
ghost use Rattle.table.specs.Code.{lent};
ghost use Rattle.table.specs.Private.{Passed};
ghost use Rattle.walk.specs.Walking.{starts, Walking};
ghost use Rattle.window.specs.Windows.{limits, Floored, Capped, Inside, Placed};

use crate::Interval;
use crate::select::offer_unless;
use message::Payload;
use walk::Walk;

// Takes in the wanted ones of a list of `count` ids at a place of the reply, also where an own item has them; how many places there are then.
fn offer_list(
    m: &[u8],
    count: usize,
    at: usize,
    interval: Interval,
    words: &mut [u64],
    pos: &mut [usize],
    n: usize,
) -> usize
    requires { (at + count * 32 ≤ length m.now) × Floored interval m.now × (length words.old ≡ 11008) × (length pos.old ≡ 11008) × Placed m.now words.old pos.old n }
    ensures { Placed m.now words.new pos.new result × (Inside (limits interval m.now) m.now pos.old n → Inside (limits interval m.now) m.now pos.new result) }
{
    let mut n = n;
    for i in 0..count {
        n = offer_unless(m, interval, words, pos, n, at + i * 32, 0);
    }
    n
}

// The smallest ids of an interval that a reply lists, as many as have room: how many they are.
fn smallest_listed(
    times: &[u64],
    own: &[u8],
    m: &[u8],
    interval: Interval,
    words: &mut [u64],
    pos: &mut [usize],
) -> usize
    requires { Passed (lent times.now own.now) × Walking (lent times.now own.now) m.now starts × Floored interval m.now × (length words.old ≡ 11008) × (length pos.old ≡ 11008) }
    ensures { Placed m.now words.new pos.new result × Inside (limits interval m.now) m.now pos.new result }
{
    let mut n = 0;
    let mut walk = Walk::start();
    while walk.cursor.at < m.len() {
        let step = walk.step(m, times, own);
        walk = step.next;
        if let Payload::Ids { count, at } = step.payload {
            n = offer_list(m, count, at, interval, words, pos, n);
        }
    }
    n
}

// The part of an interval for its next window. Where it has one word only, and more listed ids than a window has room for, that is up to the largest of the
// smallest ones: then each id is looked up for one window only. `words` and `pos` are room for this.
pub fn cap(
    times: &[u64],
    own: &[u8],
    m: &[u8],
    interval: Interval,
    words: &mut [u64],
    pos: &mut [usize],
) -> Interval
    requires { Passed (lent times.now own.now) × Walking (lent times.now own.now) m.now starts × Floored interval m.now × (interval.ceiling ≡ None) × (length words.old ≡ 11008) × (length pos.old ≡ 11008) }
    ensures { Capped m.now interval result }
{
    if interval.low < interval.last {
        return interval;
    }
    let n = smallest_listed(times, own, m, interval, words, pos);
    if n < 11008 {
        return interval;
    }
    Interval {
        ceiling: Some(pos[0]),
        ..interval
    }
}
