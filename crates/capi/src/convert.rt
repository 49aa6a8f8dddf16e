// The call that gives a session kept from before its label, for C and Rust.
ghost use Rattle.std.specs.Prelude.{◌≡◌};
ghost use Rattle.table.specs.Code.{lent};
ghost use Rattle.ends.specs.Converting.{converted};
ghost use Rattle.session.specs.Code.{kept_by};
ghost use Rattle.capi.specs.Calls.{told_by, told_with};
ghost use Rattle.capi.specs.Sessions.{unlabelled_by};

use crate::{SessionAnswer, tell_session};
use session::convert::{Unlabelled, convert_session};
use session::opener::Session;

// A session as it was before sessions had a label.
#[repr(C)]
#[derive(Clone, Copy)]
pub struct UnlabelledSession {
    pub marked: usize,
    pub needed: usize,
    pub done: bool,
}

// Gives a session kept from before the label of its table.
#[unsafe(no_mangle)]
pub extern "C" fn recon_session_convert(
    times: &[u64],
    ids: &[u8],
    session: UnlabelledSession,
    marks: &[u8],
    needed: &[u8],
) -> SessionAnswer
    ensures { told_by result ≡ told_with (kept_by (converted (lent times.now ids.now) (unlabelled_by session) marks.now needed.now)) }
{
    let kept = Unlabelled {
        marked: session.marked,
        needed: session.needed,
        done: session.done,
    };
    match convert_session(times, ids, kept, marks, needed) {
        Ok(session) => tell_session(Ok(0), session),
        Err(refusal) => tell_session(Err(refusal), Session::NONE),
    }
}
