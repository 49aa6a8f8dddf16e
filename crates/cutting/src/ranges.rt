// The ranges that a span becomes, handed to the writer: written, or only measured.
ghost use Rattle.std.specs.Prelude.{◌≡◌, true, false, [], ◌∷◌, ◌-◌, ◌≤◌, ◌<◌, length};
ghost use Rattle.message.specs.Message.{range, fingerprint, ids};
ghost use Rattle.message.specs.Code.{bound_of};
ghost use Rattle.label.specs.Label as labels;
ghost use Rattle.label.specs.Code.{whole_ids};
ghost use Rattle.theory.specs.Cutting.{split};
ghost use Rattle.theory.specs.Rounds.{to_last};
ghost use Rattle.theory.specs.Standard.{sizes};
ghost use Rattle.writer.specs.Private.{Lawful};
ghost use Rattle.writer.specs.Stream.{before};
ghost use Rattle.writer.specs.Handover.{writes, buffer_of, after, HandsOver};
ghost use Rattle.table.specs.Table.{ids_of, items};
ghost use Rattle.table.specs.Code.{lent};
ghost use Rattle.table.specs.Private.{Passed, item_at};
ghost use Rattle.cutting.specs.Cutting as spec;
ghost use Rattle.cutting.specs.Code.{cut_of};
ghost use Rattle.cutting.specs.Private.{run, own_in, upper_of, Inside};

use crate::between::{Placed, shortest_bound};
use crate::{Cut, Span, part_size};
use label::Label;
use message::{Payload, Range, Refusal};
use writer::write::{Pass, Writer};

// One range with all own ids of the span, in table order.
pub fn put_ids(
    writer: &mut Writer,
    out: &mut [u8],
    pass: Pass,
    times: &[u64],
    own: &[u8],
    span: Span,
) -> Result<(), Refusal>
    requires { Passed (lent times.now own.now) × Inside (lent times.now own.now) span }
    ensures { HandsOver (writes pass) (range (upper_of span) (ids (ids_of (own_in (lent times.now own.now) span))) ∷ []) (before writer.old (buffer_of pass out.old)) (after result writer.new (buffer_of pass out.new)) }
{
    let prefix = span.prefix;
    let range = Range {
        bound: span.bound,
        prefix,
        payload: Payload::Ids {
            count: span.hi - span.lo,
            at: span.lo * 32,
        },
    };
    writer.put(out, pass, range, own)
}

// The fingerprint of the items whose ids these are. Of one that is only measured the size alone counts, so none is computed.
fn fingerprint_bytes(pass: Pass, ids: &[u8]) -> [u8; 16]
    ensures { writes pass ≡ true → result ≡ labels.fingerprint (labels.label_of (whole_ids ids.now)) }
{
    match pass {
        Pass::Measure { .. } => [0u8; 16],
        Pass::Write => Label::of_ids(ids).fingerprint(),
    }
}

// One range with the fingerprint of the items from place `at` up to place `end`.
pub fn put_fingerprint(
    writer: &mut Writer,
    out: &mut [u8],
    pass: Pass,
    times: &[u64],
    own: &[u8],
    at: usize,
    end: usize,
    upper: Placed,
) -> Result<(), Refusal>
    requires { Passed (lent times.now own.now) × (at ≤ end) × (end ≤ length times.now) × Lawful upper.bound }
    ensures { HandsOver (writes pass) (range (bound_of upper.bound upper.prefix) (fingerprint (spec.fingerprint_of (run (lent times.now own.now) at end))) ∷ []) (before writer.old (buffer_of pass out.old)) (after result writer.new (buffer_of pass out.new)) }
{
    let source = fingerprint_bytes(pass, &own[at * 32..end * 32]);
    let prefix = upper.prefix;
    let range = Range {
        bound: upper.bound,
        prefix,
        payload: Payload::Fingerprint { at: 0 },
    };
    writer.put(out, pass, range, &source)
}

// The upper bound of the part that ends at the place `end`: the shortest between neighbours, and at the end of the span its own.
fn upper_at(times: &[u64], own: &[u8], span: Span, end: usize) -> Placed
    requires { Passed (lent times.now own.now) × Inside (lent times.now own.now) span × (0 < end) × (end ≤ span.hi) }
    ensures { Lawful result.bound × (end ≡ span.hi → bound_of result.bound result.prefix ≡ upper_of span) × (end < span.hi → bound_of result.bound result.prefix ≡ spec.shortest (item_at (lent times.now own.now) (end - 1)) (item_at (lent times.now own.now) end)) }
{
    if end < span.hi {
        return shortest_bound(times, own, end);
    }
    let prefix = span.prefix;
    Placed {
        bound: span.bound,
        prefix,
    }
}

// The fingerprints of the parts of the span.
fn put_parts(
    writer: &mut Writer,
    out: &mut [u8],
    pass: Pass,
    times: &[u64],
    own: &[u8],
    parts: usize,
    span: Span,
) -> Result<(), Refusal>
    requires { Passed (lent times.now own.now) × Inside (lent times.now own.now) span × (0 < parts) × (parts ≤ span.hi - span.lo) }
    ensures { HandsOver (writes pass) (spec.fingerprint_ranges (split (sizes to_last parts (span.hi - span.lo)) (own_in (lent times.now own.now) span)) (upper_of span)) (before writer.old (buffer_of pass out.old)) (after result writer.new (buffer_of pass out.new)) }
{
    let count = span.hi - span.lo;
    let mut at = span.lo;
    for i in 0..parts {
        let end = at + part_size(parts, count, i);
        let upper = upper_at(times, own, span, end);
        put_fingerprint(writer, out, pass, times, own, at, end, upper)?;
        at = end;
    }
    Ok(())
}

// The cutting of the span.
pub fn put_cut(
    writer: &mut Writer,
    out: &mut [u8],
    pass: Pass,
    times: &[u64],
    own: &[u8],
    cut: Cut,
    span: Span,
) -> Result<(), Refusal>
    requires { Passed (lent times.now own.now) × Inside (lent times.now own.now) span × (spec.outside_limits (cut_of cut) ≡ false) }
    ensures { HandsOver (writes pass) (spec.cut (cut_of cut) (own_in (lent times.now own.now) span) (upper_of span)) (before writer.old (buffer_of pass out.old)) (after result writer.new (buffer_of pass out.new)) }
{
    if span.hi - span.lo <= cut.limit {
        put_ids(writer, out, pass, times, own, span)
    } else {
        put_parts(writer, out, pass, times, own, cut.parts, span)
    }
}
