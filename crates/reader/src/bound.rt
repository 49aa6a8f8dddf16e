// Bounds: time code, prefix length, prefix.
ghost use Rattle.std.specs.Prelude.{◌≡◌, drop};
ghost use Rattle.message.specs.Bound.{read_prefix, read_bound};
ghost use Rattle.message.specs.Code.{bound_of};
ghost use Rattle.reader.specs.Answers.{bound_read, BoundPlaced};
ghost use Rattle.reader.specs.Private.{prefix_read, PrefixPlaced, BeforeOrder};

use crate::varint::{Cursor, Read};
use message::{Bound, Refusal, below};

// An upper bound, and its prefix as a part of the message.
#[derive(Clone, Copy)]
pub struct UpperBound<'a> {
    pub bound: Bound,
    pub prefix: &'a [u8],
}

impl Cursor {
    // A prefix of at most `most` bytes.
    pub(crate) fn prefix(self, m: &[u8], most: u64) -> Result<Read<&[u8]>, Refusal>
        ensures { (prefix_read m.now result ≡ read_prefix most (drop self.at m.now)) × PrefixPlaced most m.now result }
    {
        let Read { value, next } = self.varint(m)?;
        if most < value {
            return Err(Refusal::BadBound);
        }
        let len = value as usize;
        if m.len() - next.at < len {
            return Err(Refusal::Truncated);
        }
        let end = next.at + len;
        Ok(Read {
            value: &m[next.at..end],
            next: Cursor { at: end },
        })
    }

    // A bound behind one of the time `last`, not compared with it yet.
    pub(crate) fn uncompared(self, m: &[u8], last: u64) -> Result<Read<UpperBound<'_>>, Refusal>
        ensures { BeforeOrder last m.now self.at result × BoundPlaced m.now result }
    {
        let Read { value: code, next } = self.varint(m)?;
        if code == 0 {
            let Read {
                value: prefix,
                next,
            } = next.prefix(m, 0)?;
            let bound = Bound::Infinity;
            return Ok(Read {
                value: UpperBound { bound, prefix },
                next,
            });
        }
        // 2^64 - 1 is no item's time, and a sum above it saturates to it
        let time = last.saturating_add(code - 1);
        if time == u64::MAX {
            return Err(Refusal::BadBound);
        }
        let Read {
            value: prefix,
            next,
        } = next.prefix(m, 32)?;
        let len = prefix.len();
        let bound = Bound::At { time, len };
        Ok(Read {
            value: UpperBound { bound, prefix },
            next,
        })
    }

    // The bound behind `lower`, whose prefix begins the bytes beside it.
    pub fn bound<'a>(
        self,
        m: &'a [u8],
        lower: Bound,
        beside: &[u8],
    ) -> Result<Read<UpperBound<'a>>, Refusal>
        ensures { (bound_read m.now result ≡ read_bound (bound_of lower beside.now) (drop self.at m.now)) × BoundPlaced m.now result }
    {
        let last = lower.time();
        let read = self.uncompared(m, last)?;
        let upper = read.value;
        if !below(last, lower.prefix(beside), upper.bound.time(), upper.prefix) {
            return Err(Refusal::BadBound);
        }
        Ok(read)
    }
}
