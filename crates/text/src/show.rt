// All that `showmsg` prints for a message, written into a buffer.
ghost use Rattle.std.specs.Prelude.{◌≤◌, ◌≡◌, length};
ghost use Rattle.message.specs.Message as format;
ghost use Rattle.message.specs.Code.{range_of};
ghost use Rattle.text.specs.Text as spec;
ghost use Rattle.text.specs.Text.{IsPrefixLen, put};
ghost use Rattle.text.specs.Private.{Readable};

use crate::{copy, put_line, put_refusal};
use message::Range;
use reader::check::check_message;
use reader::range::{RangeCursor, RangeRead};

// Room for the text of every message.
pub const ROOM: usize = 655360;

// The line of a range, into a buffer that may have no room for the longest line.
fn put_range(out: &mut [u8], range: Range, m: &[u8]) -> usize
    requires { length (spec.line (range_of range m.now)) ≤ length out.old }
    ensures value { result ≡ length (spec.line (range_of range m.now)) }
    ensures out_after { out.new ≡ put (spec.line (range_of range m.now)) out.old }
{
    let mut line = [0u8; 131];
    let n = put_line(&mut line, range, m);
    copy(&line[..n], out);
    n
}

// A line for each range of a message that can be read.
fn put_ranges(out: &mut [u8], m: &[u8]) -> usize
    requires { (length m.now ≤ 65536) × (spec.room ≤ length out.old) × Readable m.now }
    ensures value { result ≡ length (spec.printed (format.read_message m.now)) }
    ensures out_after { out.new ≡ put (spec.printed (format.read_message m.now)) out.old }
{
    let mut cursor = RangeCursor::START;
    let mut n = 0;
    while cursor.at < m.len() {
        // the message can be read, and so can each of its ranges
        let RangeRead { range, next } = cursor.range(m).unwrap();
        n += put_range(&mut out[n..], range, m);
        cursor = next;
    }
    n
}

// Writes the text at the start of `out` and answers how many bytes it takes. Where `out` has less than `ROOM` bytes the answer is 0 and nothing
// is written.
#[tactic(auto, using(crate::proofs::Showing::too_long_lem))]
pub fn show(m: &[u8], out: &mut [u8]) -> usize
    ensures value { result ≡ length (spec.shown_in out.old m.now) }
    ensures out_after { out.new ≡ put (spec.shown_in out.old m.now) out.old }
    ensures prefix_len { IsPrefixLen result out.new }
{
    if out.len() < ROOM {
        return 0;
    }
    if 65536 < m.len() {
        return copy(b"too long\n", out);
    }
    match check_message(m) {
        Ok(_) => put_ranges(out, m),
        Err(refusal) => put_refusal(out, refusal.number()),
    }
}
