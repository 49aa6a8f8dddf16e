// A message handed to the writer: measured, or written at the start of a buffer.
ghost use Rattle.std.specs.Prelude.{◌≡◌, true, false, [], ◌∷◌, length};
ghost use Rattle.message.specs.Meaning.{write_message};
ghost use Rattle.writer.specs.Writing.{lay, started};
ghost use Rattle.writer.specs.Stream.{before};
ghost use Rattle.writer.specs.Handover.{writes, buffer_of, after, HandsOver};
ghost use Rattle.table.specs.Code.{lent};
ghost use Rattle.table.specs.Private.{Passed};
ghost use Rattle.cutting.specs.Cutting.{outside_limits};
ghost use Rattle.cutting.specs.Code.{cut_of};
ghost use Rattle.sending.specs.Private.{Walks, to_send};
ghost use Rattle.sending.specs.Private as spec;

use crate::Kind;
use cutting::ranges::put_cut;
use cutting::{Cut, Span};
use exchange::treat::put_reply;
use message::{Bound, Refusal};
use writer::write::{Pass, Writer};

// The whole range of a table, up to infinity.
pub(crate) fn whole(times: &[u64]) -> Span
    ensures { result ≡ spec.whole (length times.now) }
{
    Span {
        lo: 0,
        hi: times.len(),
        bound: Bound::Infinity,
        prefix: [0u8; 32],
    }
}

// The ranges of a message, handed over. The first query is made of the table alone: `m` counts in the other two.
fn put_message(
    writer: &mut Writer,
    out: &mut [u8],
    pass: Pass,
    kind: Kind,
    times: &[u64],
    own: &[u8],
    cut: Cut,
    m: &[u8],
) -> Result<(), Refusal>
    requires { Passed (lent times.now own.now) × (outside_limits (cut_of cut) ≡ false) × Walks kind (lent times.now own.now) m.now }
    ensures { HandsOver (writes pass) (to_send kind (cut_of cut) (lent times.now own.now) m.now) (before writer.old (buffer_of pass out.old)) (after result writer.new (buffer_of pass out.new)) }
{
    match kind {
        Kind::FirstQuery => put_cut(writer, out, pass, times, own, cut, whole(times)),
        Kind::Answer => put_reply(writer, out, pass, true, times, own, cut, m),
        Kind::NextQuery => put_reply(writer, out, pass, false, times, own, cut, m),
    }
}

// The length of a message, if it has at most `size` bytes; no more of it is measured than that.
pub fn measure(
    kind: Kind,
    times: &[u64],
    own: &[u8],
    cut: Cut,
    m: &[u8],
    size: usize,
) -> Option<usize>
    requires { Passed (lent times.now own.now) × (outside_limits (cut_of cut) ≡ false) × Walks kind (lent times.now own.now) m.now }
    ensures { result ≡ spec.length_within (write_message (to_send kind (cut_of cut) (lent times.now own.now) m.now)) size }
{
    let mut writer = Writer::start(size).ok()?;
    let pass = Pass::Measure { size };
    put_message(&mut writer, &mut [], pass, kind, times, own, cut, m).ok()?;
    Some(writer.at)
}

// A message, written at the start of `out` as far as it has room, and the writer behind what was written.
pub fn write(
    kind: Kind,
    times: &[u64],
    own: &[u8],
    cut: Cut,
    m: &[u8],
    out: &mut [u8],
) -> (Writer, Result<(), Refusal>)
    requires { Passed (lent times.now own.now) × (outside_limits (cut_of cut) ≡ false) × Walks kind (lent times.now own.now) m.now }
    ensures { HandsOver true (to_send kind (cut_of cut) (lent times.now own.now) m.now) (before started (lay (0x61 ∷ []) out.old)) (after result.1 result.0 out.new) }
{
    let mut writer = Writer::START;
    // Where the byte 61 has no room, the first range has none.
    let _ = Writer::begin(out);
    let written = put_message(&mut writer, out, Pass::Write, kind, times, own, cut, m);
    (writer, written)
}
