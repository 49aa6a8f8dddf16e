// Query and reply side by side: for each range of the query, the reply's ranges that meet it.
ghost use Rattle.std.specs.Prelude.{ℕ, ◌≤◌, ◌<◌, ◌≡◌, cond, List, [], ◌∷◌, ◌++◌, ltb, length};
ghost use Rattle.message.specs.Bound.{infinity, key};
ghost use Rattle.message.specs.Message as M;
ghost use Rattle.message.specs.Code.{payload_of};
ghost use Rattle.writer.specs.Private as W;
ghost use Rattle.table.specs.Lists.{every};
ghost use Rattle.table.specs.Code.{lent};
ghost use Rattle.table.specs.Private.{Passed};
ghost use Rattle.cutting.specs.Private.{own_in, upper_of, Inside};
ghost use Rattle.reader.specs.Private.{lower_at, ranges_at};
ghost use Rattle.walk.specs.Walking.{starts, Walking};
ghost use Rattle.judge.specs.Judge.{is_skip, is_ids, whole, answers, every_range};
ghost use Rattle.judging.specs.Private.{answered, bound_at, met_from, wants, allowed, roomy, concludes, Answering};

use cutting::Span;
use cutting::between::Placed;
use exchange::treat::equals_own;
use message::{Bound, Payload, below};
use walk::{Step, Walk};

// What a range of the query asks of the reply: skips, a division of it, or ids.
#[derive(Clone, Copy)]
pub(crate) enum Asked {
    Skip,
    Division,
    Ids,
}

// Of the ranges met so far: whether each was what is asked for, how many there are, and whether all list ids.
#[derive(Clone, Copy)]
pub(crate) struct Sofar {
    pub fits: bool,
    pub met: usize,
    pub listed: bool,
}

// Whether one bound comes before another.
fn is_below(a: Placed, b: Placed) -> bool
    ensures { result ≡ ltb (key (bound_at a)) (key (bound_at b)) }
{
    below(
        a.bound.time(),
        a.bound.prefix(&a.prefix),
        b.bound.time(),
        b.bound.prefix(&b.prefix),
    )
}

// The bound before a walk.
fn lower_of(walk: Walk) -> Placed
    ensures { bound_at result ≡ lower_at walk.cursor }
{
    let prefix = walk.cursor.prefix;
    Placed {
        bound: walk.cursor.lower,
        prefix,
    }
}

// The bound behind a range.
fn upper_of(span: Span) -> Placed
    ensures { bound_at result ≡ upper_of span }
{
    let prefix = span.prefix;
    Placed {
        bound: span.bound,
        prefix,
    }
}

// Kinds of payloads.
#[tactic(auto, unfolding(judge::specs::Judge::is_skip))]
fn is_skip(payload: Payload) -> bool
    ensures { (m : List ℕ) → result ≡ is_skip (payload_of payload m) }
{
    matches!(payload, Payload::Skip)
}

#[tactic(auto, unfolding(judge::specs::Judge::is_ids))]
fn is_ids(payload: Payload) -> bool
    ensures { (m : List ℕ) → result ≡ is_ids (payload_of payload m) }
{
    matches!(payload, Payload::Ids { .. })
}

impl Asked {
    // Whether one payload is what is asked for.
    fn allows(self, payload: Payload) -> bool
        ensures { (m : List ℕ) → result ≡ allowed self (payload_of payload m) }
    {
        match self {
            Asked::Skip => is_skip(payload),
            Asked::Division => !is_skip(payload),
            Asked::Ids => is_ids(payload),
        }
    }

    // Whether as many, all of them ids or not, are enough.
    fn enough(self, listed: bool, met: usize) -> bool
        ensures { result ≡ roomy self listed met }
    {
        match self {
            Asked::Skip | Asked::Ids => true,
            Asked::Division => listed || 2 <= met,
        }
    }
}

impl Sofar {
    // One payload more, if its range meets the query's.
    fn note(self, asked: Asked, meets: bool, payload: Payload) -> Sofar
        ensures { (m : List ℕ) (ps : List M.Payload) → concludes asked result ps ≡ concludes asked self (cond meets (payload_of payload m ∷ []) [] ++ ps) }
    {
        if !meets {
            return self;
        }
        Sofar {
            fits: self.fits && asked.allows(payload),
            met: self.met.saturating_add(1),
            listed: self.listed && is_ids(payload),
        }
    }

    // What comes of it with no range more.
    fn conclude(self, asked: Asked) -> bool
        ensures { result ≡ concludes asked self [] }
    {
        self.fits && asked.enough(self.listed, self.met)
    }
}

// What the span's range of the query asks for.
fn asks(m: &[u8], times: &[u64], own: &[u8], span: Span, payload: Payload) -> Asked
    requires { Passed (lent times.now own.now) × Inside (lent times.now own.now) span × W.Inside payload (length m.now) }
    ensures { (ps : List M.Payload) → wants result ps ≡ answers (own_in (lent times.now own.now) span) (payload_of payload m.now) ps }
{
    match payload {
        Payload::Skip => Asked::Skip,
        Payload::Fingerprint { at } => {
            if equals_own(m, at, times, own, span) {
                Asked::Skip
            } else {
                Asked::Division
            }
        }
        Payload::Ids { .. } => Asked::Ids,
    }
}

// Where the reply, from a walk on, is what the query's range from `lower` to `upper` asks for: the walk for the query's next range. It begins before the last range
// that was read, which may reach beyond `upper`.
fn range_answered(
    asked: Asked,
    times: &[u64],
    own: &[u8],
    reply: &[u8],
    mut walk: Walk,
    lower: Placed,
    upper: Placed,
) -> Option<Walk>
    requires { Passed (lent times.now own.now) × Walking (lent times.now own.now) reply.now walk × (key (lower_at walk.cursor) ≤ key (bound_at lower)) × (key (bound_at lower) < key (bound_at upper)) × (key (bound_at upper) ≤ key infinity) }
    ensures { Answering asked (lent times.now own.now) reply.now walk (bound_at lower) (bound_at upper) result }
{
    let mut sofar = Sofar {
        fits: true,
        met: 0,
        listed: true,
    };
    while walk.cursor.at < reply.len() {
        let Step {
            span,
            payload,
            next,
        } = walk.step(reply, times, own);
        let end = upper_of(span);
        sofar = sofar.note(asked, is_below(lower, end), payload);
        if !is_below(end, upper) {
            return sofar.conclude(asked).then_some(walk);
        }
        walk = next;
    }
    // a skip follows the last range
    sofar = sofar.note(asked, true, Payload::Skip);
    sofar.conclude(asked).then_some(walk)
}

// Whether what follows the query's last bound, a skip, is answered by skips.
fn rest_answered(times: &[u64], own: &[u8], reply: &[u8], walk: Walk, lower: Placed) -> bool
    requires { Passed (lent times.now own.now) × Walking (lent times.now own.now) reply.now walk × (key (lower_at walk.cursor) ≤ key (bound_at lower)) }
    ensures { result ≡ every is_skip (met_from (bound_at lower) infinity reply.now walk) }
{
    let end = Placed {
        bound: Bound::Infinity,
        prefix: [0; 32],
    };
    !is_below(lower, end)
        || range_answered(Asked::Skip, times, own, reply, walk, lower, end).is_some()
}

// Whether every range of the query is answered.
pub(crate) fn query_answered(times: &[u64], own: &[u8], query: &[u8], reply: &[u8]) -> bool
    requires { Passed (lent times.now own.now) × Walking (lent times.now own.now) query.now starts × Walking (lent times.now own.now) reply.now starts }
    ensures { result ≡ every_range (answered (lent times.now own.now) reply.now) (whole (ranges_at query.now starts.cursor)) }
{
    let mut walk = Walk::start();
    let mut other = Walk::start();
    while walk.cursor.at < query.len() {
        let Step {
            span,
            payload,
            next,
        } = walk.step(query, times, own);
        let lower = lower_of(walk);
        let upper = upper_of(span);
        let asked = asks(query, times, own, span, payload);
        let Some(met) = range_answered(asked, times, own, reply, other, lower, upper) else {
            return false;
        };
        other = met;
        walk = next;
    }
    rest_answered(times, own, reply, other, lower_of(walk))
}
