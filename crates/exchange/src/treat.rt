// What either end makes of the other's message, range by range, handed to the writer: written or measured.
ghost use Rattle.std.specs.Prelude.{◌+◌, ◌≤◌, ◌≡◌, false, length, take, drop};
ghost use mathlib.Core.List.{[], ◌∷◌, flatten};
ghost use Rattle.message.specs.Bound.{Bound, start};
ghost use Rattle.message.specs.Message.{range, skip};
ghost use Rattle.message.specs.Code.{payload_of};
ghost use Rattle.writer.specs.Private as W;
ghost use Rattle.writer.specs.Stream.{before};
ghost use Rattle.writer.specs.Handover.{writes, buffer_of, after, HandsOver};
ghost use Rattle.reader.specs.Private.{ranges_at};
ghost use Rattle.table.specs.Table.{items, within};
ghost use Rattle.table.specs.Code.{lent};
ghost use Rattle.table.specs.Private.{Passed};
ghost use Rattle.cutting.specs.Cutting.{fingerprint_of, outside_limits};
ghost use Rattle.cutting.specs.Code.{cut_of};
ghost use Rattle.cutting.specs.Private.{own_in, upper_of, Inside};
ghost use Rattle.ends.specs.Lists.{same};
ghost use Rattle.ends.specs.Calls.{each_range};
ghost use Rattle.ends.specs.Responder.{treat};
ghost use Rattle.ends.specs.Opener.{skips_only, next_query};
ghost use Rattle.walk.specs.Walking.{starts, Walking};
ghost use Rattle.theory.specs.Rounds as R;
ghost use Rattle.exchange.specs.Given.{given, equal_or_none};

use cutting::ranges::{put_cut, put_ids};
use cutting::{Cut, Span};
use idlist::same_bytes;
use label::Label;
use message::{Payload, Range, Refusal};
use walk::{Step, Walk};
use writer::write::{Pass, Writer};

// Whether the fingerprint at a place of the message is that of the span's own items.
pub fn equals_own(m: &[u8], at: usize, times: &[u64], own: &[u8], span: Span) -> bool
    requires { Passed (lent times.now own.now) × Inside (lent times.now own.now) span × (at + 16 ≤ length m.now) }
    ensures { result ≡ same (take 16 (drop at m.now)) (fingerprint_of (own_in (lent times.now own.now) span)) }
{
    let print = Label::of_ids(&own[span.lo * 32..span.hi * 32]).fingerprint();
    same_bytes(&m[at..at + 16], &print)
}

// A skip up to the span's bound.
fn put_skip(
    writer: &mut Writer,
    out: &mut [u8],
    pass: Pass,
    span: Span,
    m: &[u8],
) -> Result<(), Refusal>
    requires { W.Lawful span.bound }
    ensures { HandsOver (writes pass) (range (upper_of span) skip ∷ []) (before writer.old (buffer_of pass out.old)) (after result writer.new (buffer_of pass out.new)) }
{
    let prefix = span.prefix;
    let range = Range {
        bound: span.bound,
        prefix,
        payload: Payload::Skip,
    };
    writer.put(out, pass, range, m)
}

// What one range becomes: where it lists ids, all own ids if `listing` says so, and otherwise a skip.
pub fn put_treated(
    writer: &mut Writer,
    out: &mut [u8],
    pass: Pass,
    listing: bool,
    times: &[u64],
    own: &[u8],
    cut: Cut,
    m: &[u8],
    span: Span,
    payload: Payload,
) -> Result<(), Refusal>
    requires { Passed (lent times.now own.now) × (outside_limits (cut_of cut) ≡ false) × Inside (lent times.now own.now) span × W.Inside payload (length m.now) }
    ensures { (x : Bound) → within x (upper_of span) (items (lent times.now own.now)) ≡ own_in (lent times.now own.now) span → HandsOver (writes pass) (treat (given listing) (cut_of cut) (items (lent times.now own.now)) x (upper_of span) (payload_of payload m.now)) (before writer.old (buffer_of pass out.old)) (after result writer.new (buffer_of pass out.new)) }
{
    match payload {
        Payload::Fingerprint { at } if !equals_own(m, at, times, own, span) => {
            put_cut(writer, out, pass, times, own, cut, span)
        }
        Payload::Ids { .. } if listing => put_ids(writer, out, pass, times, own, span),
        _ => put_skip(writer, out, pass, span, m),
    }
}

// What the whole message becomes.
pub fn put_reply(
    writer: &mut Writer,
    out: &mut [u8],
    pass: Pass,
    listing: bool,
    times: &[u64],
    own: &[u8],
    cut: Cut,
    m: &[u8],
) -> Result<(), Refusal>
    requires { Passed (lent times.now own.now) × (outside_limits (cut_of cut) ≡ false) × Walking (lent times.now own.now) m.now starts }
    ensures { HandsOver (writes pass) (flatten (each_range (treat (given listing) (cut_of cut) (items (lent times.now own.now))) start (ranges_at m.now starts.cursor))) (before writer.old (buffer_of pass out.old)) (after result writer.new (buffer_of pass out.new)) }
{
    let mut walk = Walk::start();
    while walk.cursor.at < m.len() {
        let Step {
            span,
            payload,
            next,
        } = walk.step(m, times, own);
        put_treated(
            writer, out, pass, listing, times, own, cut, m, span, payload,
        )?;
        walk = next;
    }
    Ok(())
}

// Whether the span's range gives a skip to the opener.
fn gives_skip(m: &[u8], times: &[u64], own: &[u8], span: Span, payload: Payload) -> bool
    requires { Passed (lent times.now own.now) × Inside (lent times.now own.now) span × W.Inside payload (length m.now) }
    ensures { result ≡ equal_or_none (payload_of payload m.now) (own_in (lent times.now own.now) span) }
{
    match payload {
        Payload::Fingerprint { at } => equals_own(m, at, times, own, span),
        Payload::Skip | Payload::Ids { .. } => true,
    }
}

// Whether the opener's next query would be skips only.
pub fn skips_only(times: &[u64], own: &[u8], m: &[u8]) -> bool
    requires { Passed (lent times.now own.now) × Walking (lent times.now own.now) m.now starts }
    ensures { (c : R.Cut) → outside_limits c ≡ false → result ≡ skips_only (next_query c (items (lent times.now own.now)) (ranges_at m.now starts.cursor)) }
{
    let mut walk = Walk::start();
    while walk.cursor.at < m.len() {
        let step = walk.step(m, times, own);
        if !gives_skip(m, times, own, step.span, step.payload) {
            return false;
        }
        walk = step.next;
    }
    true
}
