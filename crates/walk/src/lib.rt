// Steps through a message range by range, with the own items of each range. For our own crates: message and table are checked before.
#![tactic(auto)]

ghost use Rattle.std.specs.Prelude.{◌<◌, ◌≡◌, length};
ghost use Rattle.table.specs.Code.{lent};
ghost use Rattle.table.specs.Private.{Passed};
ghost use Rattle.walk.specs.Walking.{starts, Walking, Stepped};

use cutting::Span;
use message::Payload;
use reader::range::{RangeCursor, RangeRead};
use table::search::first_at_or_above;

// Where a walk stands: the cursor in the message, and the place in the table of the bound before it.
#[derive(Clone, Copy)]
pub struct Walk {
    pub cursor: RangeCursor,
    pub lo: usize,
}

// One range, with the own items from `lo` up to `hi`, and the walk behind it.
#[derive(Clone, Copy)]
pub struct Step {
    pub span: Span,
    pub payload: Payload,
    pub next: Walk,
}

impl Walk {
    // Before the first range.
    pub fn start() -> Walk
        ensures { result ≡ starts }
    {
        let cursor = RangeCursor::START;
        Walk { cursor, lo: 0 }
    }

    // The next range of the message.
    pub fn step(self, m: &[u8], times: &[u64], ids: &[u8]) -> Step
        requires { Passed (lent times.now ids.now) × Walking (lent times.now ids.now) m.now self × (self.cursor.at < length m.now) }
        ensures { Stepped (lent times.now ids.now) m.now self result }
    {
        // the message was checked, so its ranges can be read
        let RangeRead { range, next } = self.cursor.range(m).unwrap();
        let hi = first_at_or_above(times, ids, range.bound, &range.prefix);
        let prefix = range.prefix;
        Step {
            span: Span {
                lo: self.lo,
                hi,
                bound: range.bound,
                prefix,
            },
            payload: range.payload,
            next: Walk {
                cursor: next,
                lo: hi,
            },
        }
    }
}
