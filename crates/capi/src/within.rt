// The calls of a session with a byte limit, for C and Rust.
ghost use Rattle.std.specs.Prelude.{◌≡◌};
ghost use Rattle.table.specs.Code.{lent};
ghost use Rattle.limit.specs.Limit as L;
ghost use Rattle.ends.specs.Opener.{opened_within, taken_within};
ghost use Rattle.ends.specs.Responder.{answered_within};
ghost use Rattle.session.specs.Code.{lent_first};
ghost use Rattle.capi.specs.Calls.{cut_by, lent_to, told, told_by, told_with, session_of};

use crate::{Answer, Session, SessionAnswer, tell, tell_opened, tell_session};
use cutting::Cut;
use session::opener::{open_session, take_reply};
use session::responder::answer_query;

// Opens a session, its first query within `bytes` bytes.
#[unsafe(no_mangle)]
pub extern "C" fn recon_open_within(
    times: &[u64],
    ids: &[u8],
    parts: usize,
    limit: usize,
    bytes: usize,
    marks: &mut [u8],
    needed: &[u8],
    out: &mut [u8],
) -> SessionAnswer
    ensures result_value { told_by result ≡ told_with (session_of (opened_within (L.bytes bytes) (lent times.now ids.now) (cut_by parts limit) (lent_first marks.old needed.now out.old))) }
    ensures marks_after { marks.new ≡ (opened_within (L.bytes bytes) (lent times.now ids.now) (cut_by parts limit) (lent_first marks.old needed.now out.old)).lent.marks }
    ensures out_after { out.new ≡ (opened_within (L.bytes bytes) (lent times.now ids.now) (cut_by parts limit) (lent_first marks.old needed.now out.old)).lent.out }
{
    let cut = Cut { parts, limit };
    tell_opened(open_session(times, ids, cut, Some(bytes), marks, needed, out))
}

// Answers a query within `bytes` bytes.
#[unsafe(no_mangle)]
pub extern "C" fn recon_answer_within(
    times: &[u64],
    ids: &[u8],
    parts: usize,
    limit: usize,
    bytes: usize,
    query: &[u8],
    out: &mut [u8],
) -> Answer
    ensures value { result ≡ told (answered_within (L.bytes bytes) (lent times.now ids.now) (cut_by parts limit) query.now out.old).answer }
    ensures out_after { out.new ≡ (answered_within (L.bytes bytes) (lent times.now ids.now) (cut_by parts limit) query.now out.old).lent }
{
    let cut = Cut { parts, limit };
    tell(answer_query(times, ids, cut, Some(bytes), query, out))
}

// Takes a reply; the next query is within `bytes` bytes.
#[unsafe(no_mangle)]
pub extern "C" fn recon_take_within(
    times: &[u64],
    ids: &[u8],
    parts: usize,
    limit: usize,
    bytes: usize,
    reply: &[u8],
    session: Session,
    marks: &mut [u8],
    needed: &mut [u8],
    out: &mut [u8],
) -> SessionAnswer
    ensures result_value { told_by result ≡ told_with (session_of (taken_within (L.bytes bytes) (lent times.now ids.now) (cut_by parts limit) reply.now (lent_to session marks.old needed.old out.old))) }
    ensures marks_after { marks.new ≡ (taken_within (L.bytes bytes) (lent times.now ids.now) (cut_by parts limit) reply.now (lent_to session marks.old needed.old out.old)).lent.marks }
    ensures needed_after { needed.new ≡ (taken_within (L.bytes bytes) (lent times.now ids.now) (cut_by parts limit) reply.now (lent_to session marks.old needed.old out.old)).lent.needed }
    ensures out_after { out.new ≡ (taken_within (L.bytes bytes) (lent times.now ids.now) (cut_by parts limit) reply.now (lent_to session marks.old needed.old out.old)).lent.out }
{
    let mut session = session::opener::Session::from(session);
    let cut = Cut { parts, limit };
    let answer = take_reply(
        times,
        ids,
        cut,
        Some(bytes),
        reply,
        &mut session,
        marks,
        needed,
        out,
    );
    tell_session(answer, session)
}
