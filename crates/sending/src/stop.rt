// Where a message stops that a byte limit does not hold: it is measured up to the first range without room.
ghost use Rattle.std.specs.Prelude.{◌≤◌, ◌<◌, ◌≡◌, false, length};
ghost use Rattle.message.specs.Meaning.{write_message};
ghost use Rattle.table.specs.Table.{items};
ghost use Rattle.table.specs.Code.{lent};
ghost use Rattle.table.specs.Private.{Passed};
ghost use Rattle.cutting.specs.Cutting.{outside_limits};
ghost use Rattle.cutting.specs.Code.{cut_of};
ghost use Rattle.ends.specs.Opener.{first_query};
ghost use Rattle.reader.specs.Private.{ranges_at};
ghost use Rattle.walk.specs.Walking.{starts, Walking};
ghost use Rattle.exchange.specs.Given.{made};
ghost use Rattle.shorten.specs.Private.{Stands, Stopped};
ghost use Rattle.sending.specs.Private.{Walks, to_send, lists_own};

use crate::Kind;
use crate::put::whole;
use cutting::Cut;
use cutting::ranges::put_cut;
use exchange::treat::put_treated;
use message::Payload;
use shorten::Stop;
use walk::Walk;
use writer::write::{Pass, Writer};

// Where the first query stops, which `size` bytes do not hold.
fn stop_opening(times: &[u64], own: &[u8], cut: Cut, size: usize) -> Stop
    requires { Passed (lent times.now own.now) × (outside_limits (cut_of cut) ≡ false) × (1 ≤ size) × (size < length (write_message (first_query (cut_of cut) (items (lent times.now own.now))))) }
    ensures { Stopped size (lent times.now own.now) (first_query (cut_of cut) (items (lent times.now own.now))) result × Stands (lent times.now own.now) result }
{
    let span = whole(times);
    let pass = Pass::Measure { size };
    let mut writer = Writer::START;
    // Refused at the range where it stops.
    let _ = put_cut(&mut writer, &mut [], pass, times, own, cut, span);
    Stop {
        writer,
        kept: 0,
        span,
        listed: times.len() <= cut.limit,
    }
}

// Whether a range of the other's message with so many own items becomes all own ids there, unless it becomes a skip.
fn lists_own(payload: Payload, listing: bool, count: usize, cut: Cut) -> bool
    ensures { result ≡ lists_own listing cut.limit count payload }
{
    match payload {
        Payload::Skip => false,
        Payload::Fingerprint { .. } => count <= cut.limit,
        Payload::Ids { .. } => listing,
    }
}

// Where what a message becomes stops, which `size` bytes do not hold.
fn stop_reply(times: &[u64], own: &[u8], cut: Cut, listing: bool, m: &[u8], size: usize) -> Stop
    requires { Passed (lent times.now own.now) × (outside_limits (cut_of cut) ≡ false) × Walking (lent times.now own.now) m.now starts × (1 ≤ size) × (size < length (write_message (made listing (cut_of cut) (items (lent times.now own.now)) (ranges_at m.now starts.cursor)))) }
    ensures { Stopped size (lent times.now own.now) (made listing (cut_of cut) (items (lent times.now own.now)) (ranges_at m.now starts.cursor)) result × Stands (lent times.now own.now) result }
{
    let pass = Pass::Measure { size };
    let mut writer = Writer::START;
    let mut walk = Walk::start();
    let mut kept = 0;
    while walk.cursor.at < m.len() {
        let step = walk.step(m, times, own);
        let span = step.span;
        let payload = step.payload;
        let put = put_treated(
            &mut writer,
            &mut [],
            pass,
            listing,
            times,
            own,
            cut,
            m,
            span,
            payload,
        );
        if put.is_err() {
            return Stop {
                writer,
                kept,
                span,
                listed: lists_own(payload, listing, span.hi - span.lo, cut),
            };
        }
        kept = if writer.pending { kept } else { span.hi };
        walk = step.next;
    }
    // Some range has no room.
    unreachable!()
}

// Where a message stops, which `size` bytes do not hold.
pub fn stop_message(kind: Kind, times: &[u64], own: &[u8], cut: Cut, m: &[u8], size: usize) -> Stop
    requires { Passed (lent times.now own.now) × (outside_limits (cut_of cut) ≡ false) × Walks kind (lent times.now own.now) m.now × (1 ≤ size) × (size < length (write_message (to_send kind (cut_of cut) (lent times.now own.now) m.now))) }
    ensures { Stopped size (lent times.now own.now) (to_send kind (cut_of cut) (lent times.now own.now) m.now) result × Stands (lent times.now own.now) result }
{
    match kind {
        Kind::FirstQuery => stop_opening(times, own, cut, size),
        Kind::Answer => stop_reply(times, own, cut, true, m, size),
        Kind::NextQuery => stop_reply(times, own, cut, false, m, size),
    }
}
