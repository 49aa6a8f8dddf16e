// Sessions kept from before sessions had a label.
ghost use Rattle.std.specs.Prelude.{◌≡◌};
ghost use Rattle.table.specs.Code.{answer_by, lent};
ghost use Rattle.ends.specs.Converting.{converted};
ghost use Rattle.session.specs.Code.{session_in, unlabelled_in};

use crate::check::state_fits;
use crate::opener::Session;
use table::Refusal;
use tablelabel::check_and_label;

// A session without a label: how many marks are 1, how many ids are needed, and whether it is done.
#[derive(Clone, Copy)]
pub struct Unlabelled {
    pub marked: usize,
    pub needed: usize,
    pub done: bool,
}

// Gives a session the label of its table. Checks 1, 2 and 4, of sessions that are done too. Nothing that is lent changes.
pub fn convert_session(
    times: &[u64],
    ids: &[u8],
    session: Unlabelled,
    marks: &[u8],
    needed: &[u8],
) -> Result<Session, Refusal>
    ensures { answer_by session_in result ≡ converted (lent times.now ids.now) (unlabelled_in session) marks.now needed.now }
{
    let label = check_and_label(times, ids)?;
    let labelled = Session {
        marked: session.marked,
        needed: session.needed,
        done: session.done,
        label,
    };
    if !state_fits(times.len(), labelled, marks, needed) {
        return Err(Refusal::WrongState);
    }
    Ok(labelled)
}
