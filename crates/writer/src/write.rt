// The writer of a message.
ghost use Rattle.std.specs.Prelude.{IfOk, ℕ, ◌+◌, ◌≤◌, ◌<◌, ◌^◌, ◌≡◌, false, cond, List, [], ◌∷◌, leb, length};
ghost use Rattle.message.specs.Code.{range_of};
ghost use Rattle.writer.specs.Writing.{taken, verdict_of, judge, room, lay, started, pending_bytes, more_bytes, bounds_fit, verdict, moved, next, out_after};
ghost use Rattle.writer.specs.Private.{skips, Lawful, Inside};
ghost use Rattle.writer.specs.Handover.{writes, buffer_of};

use crate::part::write_range;
use crate::size::{bound_size, is_inside, is_lawful, payload_size};
use message::{Bound, Payload, Range, Refusal, below};

// The place behind the bytes already written, the bound handed over last, whether it is that of a skip not written yet, and then the time
// of the last bound that was written.
#[derive(Clone, Copy)]
pub struct Writer {
    pub at: usize,
    pub time: u64,
    pub pending: bool,
    pub bound: Bound,
    pub prefix: [u8; 32],
}

// A pass over the ranges of a message: they are measured, for a message of at most `size` bytes, or written.
#[derive(Clone, Copy)]
pub enum Pass {
    Measure { size: usize },
    Write,
}

// Whether a payload is a skip.
fn is_skip(payload: Payload) -> bool
    ensures { result ≡ skips payload }
{
    matches!(payload, Payload::Skip)
}

impl Writer {
    // Behind the first byte of a message: the bound before is time 0 without prefix.
    pub const START: Writer = Writer {
        at: 1,
        time: 0,
        pending: false,
        bound: Bound::At { time: 0, len: 0 },
        prefix: [0; 32],
    };

    // The writer behind the byte 61, measured only: a message of at most `size` bytes is begun.
    #[tactic(auto, unfolding(crate::specs::Writing::started))]
    pub fn start(size: usize) -> Result<Writer, Refusal>
        ensures verdict_value { verdict_of result ≡ judge 12 (leb 1 size) taken }
        ensures writer_value { IfOk result (λ w. w ≡ started) }
    {
        if size < 1 {
            return Err(Refusal::NoRoom);
        }
        Ok(Writer::START)
    }

    // The byte 61 at the start of `out`.
    pub fn begin(out: &mut [u8]) -> Result<Writer, Refusal>
        ensures verdict_value { verdict_of result ≡ room (0x61 ∷ []) out.old }
        ensures writer_value { IfOk result (λ w. w ≡ started) }
        ensures out_after { out.new ≡ lay (0x61 ∷ []) out.old }
    {
        if let Some(first) = out.first_mut() {
            *first = 0x61;
        }
        Writer::start(out.len())
    }

    // How many bytes the pending skip takes.
    #[tactic(auto, using(crate::proofs::Steps::pending_none, crate::proofs::Steps::pending_length), unfolding(crate::specs::Private::payload_size))]
    fn pending_size(self) -> usize
        requires { Lawful self.bound }
        ensures { (result ≡ length (pending_bytes self)) × (result ≤ 65) }
    {
        if self.pending {
            bound_size(self.time, self.bound) + 1
        } else {
            0
        }
    }

    // How many bytes one range more takes.
    fn more_size(self, range: Range, source: &[u8]) -> usize
        requires { Lawful self.bound × Lawful range.bound × Inside range.payload (length source.now) }
        ensures { result ≡ length (more_bytes self (range_of range source.now)) }
    {
        if is_skip(range.payload) {
            return 0;
        }
        self.pending_size()
            + bound_size(self.bound.time(), range.bound)
            + payload_size(range.payload, source)
    }

    // Whether refusal 9 meets neither bound, and the range's bound is above the one before it.
    fn bounds_fit(self, range: Range) -> bool
        ensures { result ≡ bounds_fit self range }
    {
        is_lawful(self.bound)
            && is_lawful(range.bound)
            && below(
                self.bound.time(),
                self.bound.prefix(&self.prefix),
                range.bound.time(),
                range.bound.prefix(&range.prefix),
            )
    }

    // The refusals of one range more, a message having at most `size` bytes.
    fn judge(self, size: usize, range: Range, source: &[u8]) -> Result<(), Refusal>
        ensures { verdict_of result ≡ verdict size self range source.now }
    {
        if !self.bounds_fit(range) {
            return Err(Refusal::BadBound);
        }
        if !is_inside(range.payload, source) {
            return Err(Refusal::Truncated);
        }
        if size < self.at || size - self.at < self.more_size(range, source) {
            return Err(Refusal::NoRoom);
        }
        Ok(())
    }

    // The writer behind one range more of n bytes.
    fn behind(self, range: Range, n: usize) -> Writer
        requires { self.at + n < 2 ^ 64 }
        ensures { (source : List ℕ) → n ≡ length (more_bytes self (range_of range source)) → result ≡ moved self range source }
    {
        let skip = is_skip(range.payload);
        Writer {
            at: self.at + n,
            time: if skip { self.time } else { range.bound.time() },
            pending: skip,
            bound: range.bound,
            prefix: range.prefix,
        }
    }

    // One range more, measured only: what `write` answers where the out buffer has `size` bytes. A refusal moves nothing.
    pub fn measure(&mut self, size: usize, range: Range, source: &[u8]) -> Result<(), Refusal>
        ensures verdict_value { verdict_of result ≡ verdict size self.old range source.now }
        ensures writer_after { self.new ≡ next size self.old range source.now }
    {
        self.judge(size, range, source)?;
        *self = self.behind(range, self.more_size(range, source));
        Ok(())
    }

    // The pending skip, at the start of `out`.
    fn write_pending(self, out: &mut [u8], source: &[u8])
        requires { Lawful self.bound × (length (pending_bytes self) ≤ length out.old) }
        ensures { out.new ≡ lay (pending_bytes self) out.old }
    {
        if self.pending {
            let prefix = self.prefix;
            let skip = Range {
                bound: self.bound,
                prefix,
                payload: Payload::Skip,
            };
            write_range(out, self.time, skip, source);
        }
    }

    // A range that is no skip, behind the pending skip, at the start of `out`.
    fn write_more(self, out: &mut [u8], range: Range, source: &[u8])
        requires { Lawful self.bound × Lawful range.bound × Inside range.payload (length source.now) × (skips range.payload ≡ false) × (length (more_bytes self (range_of range source.now)) ≤ length out.old) }
        ensures { out.new ≡ lay (more_bytes self (range_of range source.now)) out.old }
    {
        self.write_pending(out, source);
        write_range(
            &mut out[self.pending_size()..],
            self.bound.time(),
            range,
            source,
        );
    }

    // One range more, written behind the bytes already there. A refusal changes nothing.
    pub fn write(&mut self, out: &mut [u8], range: Range, source: &[u8]) -> Result<(), Refusal>
        ensures verdict_value { verdict_of result ≡ verdict (length out.old) self.old range source.now }
        ensures writer_after { self.new ≡ next (length out.old) self.old range source.now }
        ensures out_after { out.new ≡ out_after self.old range source.now out.old }
    {
        let before = *self;
        self.measure(out.len(), range, source)?;
        if !is_skip(range.payload) {
            before.write_more(&mut out[before.at..], range, source);
        }
        Ok(())
    }

    // One range more, written or measured. Where it is measured, the out buffer plays no part.
    pub fn put(
        &mut self,
        out: &mut [u8],
        pass: Pass,
        range: Range,
        source: &[u8],
    ) -> Result<(), Refusal>
        ensures verdict_value { verdict_of result ≡ verdict (length (buffer_of pass out.old)) self.old range source.now }
        ensures writer_after { self.new ≡ next (length (buffer_of pass out.old)) self.old range source.now }
        ensures out_after { buffer_of pass out.new ≡ cond (writes pass) (out_after self.old range source.now (buffer_of pass out.old)) (buffer_of pass out.old) }
    {
        match pass {
            Pass::Measure { size } => self.measure(size, range, source),
            Pass::Write => self.write(out, range, source),
        }
    }
}
