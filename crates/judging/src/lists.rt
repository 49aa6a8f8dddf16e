// What the reply says of the table.
ghost use Rattle.std.specs.Prelude.{◌+◌, ◌<◌, ◌≤◌, ◌≡◌, length};
ghost use Rattle.message.specs.Code.{payload_of};
ghost use Rattle.writer.specs.Private as W;
ghost use Rattle.reader.specs.Private.{ranges_at};
ghost use Rattle.table.specs.Code.{lent};
ghost use Rattle.table.specs.Private.{Passed};
ghost use Rattle.cutting.specs.Private.{own_in, Inside};
ghost use Rattle.index.specs.Lookup.{Room};
ghost use Rattle.walk.specs.Walking.{starts, Walking};
ghost use Rattle.judge.specs.Judge.{of_table, every_range};
ghost use Rattle.judging.specs.Private.{truth};

use crate::sets::same_ids;
use cutting::Span;
use exchange::treat::equals_own;
use message::Payload;
use walk::{Step, Walk};

// Whether what a range says is so of the span's own items.
fn of_table(
    m: &[u8],
    times: &[u64],
    own: &[u8],
    span: Span,
    payload: Payload,
    words: &mut [u64],
    pos: &mut [usize],
    found: &mut [u8],
) -> bool
    requires { Passed (lent times.now own.now) × Inside (lent times.now own.now) span × W.Inside payload (length m.now) × Room words.old pos.old found.old }
    ensures { result ≡ of_table (own_in (lent times.now own.now) span) (payload_of payload m.now) }
{
    match payload {
        Payload::Skip => true,
        Payload::Fingerprint { at } => equals_own(m, at, times, own, span),
        Payload::Ids { count, at } => {
            let first = span.lo * 32;
            let owned = span.hi - span.lo;
            same_ids(&m[at..], count, &own[first..], owned, words, pos, found)
        }
    }
}

// As `reply_of_table`, with room for an index and for what is found.
fn reply_with(
    times: &[u64],
    own: &[u8],
    reply: &[u8],
    words: &mut [u64],
    pos: &mut [usize],
    found: &mut [u8],
) -> bool
    requires { Passed (lent times.now own.now) × Walking (lent times.now own.now) reply.now starts × Room words.old pos.old found.old }
    ensures { result ≡ every_range (truth (lent times.now own.now)) (ranges_at reply.now starts.cursor) }
{
    let mut walk = Walk::start();
    while walk.cursor.at < reply.len() {
        let Step {
            span,
            payload,
            next,
        } = walk.step(reply, times, own);
        if !of_table(reply, times, own, span, payload, words, pos, found) {
            return false;
        }
        walk = next;
    }
    true
}

// As `reply_of_table`, with an index of at most W ids, and room for what is found of F ids at a time. Not inlined: a short reply is not to pay for a stack
// that has room for the large arrays.
#[inline(never)]
fn reply_sized<const W: usize, const P: usize, const F: usize>(
    times: &[u64],
    own: &[u8],
    reply: &[u8],
) -> bool
    requires { Passed (lent times.now own.now) × Walking (lent times.now own.now) reply.now starts × (0 < W) × (W + W + 1 < P) × (P ≤ 1048576) × (0 < F) × (F ≤ 1048576) }
    ensures { result ≡ every_range (truth (lent times.now own.now)) (ranges_at reply.now starts.cursor) }
{
    let mut words = [0u64; W];
    let mut pos = [0usize; P];
    let mut found = [0u8; F];
    reply_with(times, own, reply, &mut words, &mut pos, &mut found)
}

// Whether every range of the reply says what is so of the table.
pub(crate) fn reply_of_table(times: &[u64], own: &[u8], reply: &[u8]) -> bool
    requires { Passed (lent times.now own.now) × Walking (lent times.now own.now) reply.now starts }
    ensures { result ≡ every_range (truth (lent times.now own.now)) (ranges_at reply.now starts.cursor) }
{
    // A short reply lists few ids, and is spared the large arrays.
    if reply.len() <= 8192 {
        reply_sized::<256, 520, 256>(times, own, reply)
    } else {
        reply_sized::<11008, 22024, 43776>(times, own, reply)
    }
}
