// Ranges: an upper bound and a payload, read behind the bound before it.
ghost use Rattle.std.specs.Prelude.{◌≤◌, ◌≡◌, length};
ghost use Rattle.reader.specs.Answers.{padded};
ghost use Rattle.reader.specs.Stepping.{ReadAt};

use crate::varint::{Cursor, Read};
use message::{Bound, Range, Refusal};

// A place in a message, and the bound before it with its prefix beside it.
#[derive(Clone, Copy)]
pub struct RangeCursor {
    pub at: usize,
    pub lower: Bound,
    pub prefix: [u8; 32],
}

// A range that was read, and the cursor behind it.
#[derive(Clone, Copy)]
pub struct RangeRead {
    pub range: Range,
    pub next: RangeCursor,
}

// The bytes p, then zeros.
pub(crate) fn pad(p: &[u8]) -> [u8; 32]
    requires { length p.now ≤ 32 }
    ensures { result ≡ padded p.now }
{
    let mut r = [0u8; 32];
    r[..p.len()].copy_from_slice(p);
    r
}

impl RangeCursor {
    // Behind the first byte of a message: the bound before is time 0 without prefix.
    pub const START: RangeCursor = RangeCursor {
        at: 1,
        lower: Bound::At { time: 0, len: 0 },
        prefix: [0u8; 32],
    };

    pub fn range(self, m: &[u8]) -> Result<RangeRead, Refusal>
        ensures { ReadAt m.now self result }
    {
        let cursor = Cursor { at: self.at };
        let Read { value: upper, next } = cursor.bound(m, self.lower, &self.prefix)?;
        let Read {
            value: payload,
            next,
        } = next.payload(m)?;
        let bound = upper.bound;
        let prefix = pad(upper.prefix);
        Ok(RangeRead {
            range: Range {
                bound,
                prefix,
                payload,
            },
            next: RangeCursor {
                at: next.at,
                lower: bound,
                prefix,
            },
        })
    }
}
