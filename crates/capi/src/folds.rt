// The calls that fold a batch into the table of a session that is done, for C and Rust.
ghost use Rattle.std.specs.Prelude.{◌≡◌, List, ℕ};
ghost use Rattle.table.specs.Code.{lent};
ghost use Rattle.fold.specs.Fold.{inquired, committed};
ghost use Rattle.folding.specs.Code.{inquiry_of, outcome_of, needed_by, lent_to};
ghost use Rattle.capi.specs.Calls.{label_by};
ghost use Rattle.capi.specs.Folds.{fold_lent, told_inquiry, told_by, told_commit};

use crate::Session;
use folding::{Inquiry, Merged, commit, inquire};
use table::Refusal;

// The number of the refusal, 0 for none; how many items would enter, and how many ids would stay needed.
#[repr(C)]
#[derive(Clone, Copy)]
pub struct InquiryAnswer {
    pub refusal: u64,
    pub entering: usize,
    pub staying: usize,
}

// The number of the refusal, 0 for none; how many items the table has, and the session afterwards.
#[repr(C)]
#[derive(Clone, Copy)]
pub struct CommitAnswer {
    pub refusal: u64,
    pub items: usize,
    pub session: Session,
}

// What an inquiry found, in numbers.
fn tell_inquiry(inquiry: Result<Inquiry, Refusal>) -> InquiryAnswer
    ensures { result ≡ told_inquiry (inquiry_of inquiry) }
{
    match inquiry {
        Ok(Inquiry { entering, staying }) => InquiryAnswer {
            refusal: 0,
            entering,
            staying,
        },
        Err(refusal) => InquiryAnswer {
            refusal: refusal.number(),
            entering: 0,
            staying: 0,
        },
    }
}

// The outcome of a commit to a table of `items` items, in numbers, and the session afterwards.
fn tell_commit(items: usize, session: Session, outcome: Result<Merged, Refusal>) -> CommitAnswer
    ensures { (times ids list : List ℕ) → told_by result ≡ told_commit items (record { answer = outcome_of outcome; lent = lent_to times ids list session.marked (label_by session.label) (needed_by session.needed outcome) session.done }) }
{
    match outcome {
        Ok(Merged { count, needed }) => CommitAnswer {
            refusal: 0,
            items: count,
            session: Session { needed, ..session },
        },
        Err(refusal) => CommitAnswer {
            refusal: refusal.number(),
            items,
            session,
        },
    }
}

// What a commit would do. It changes nothing.
#[unsafe(no_mangle)]
pub extern "C" fn recon_fold_inquire(
    times: &[u64],
    ids: &[u8],
    items: usize,
    session: Session,
    needed: &[u8],
    batch_times: &[u64],
    batch_ids: &[u8],
) -> InquiryAnswer
    ensures { result ≡ told_inquiry (inquired items (fold_lent times.now ids.now session needed.now) (lent batch_times.now batch_ids.now)) }
{
    let n = session.needed;
    let done = session.done;
    tell_inquiry(inquire(times, ids, items, needed, n, done, batch_times, batch_ids))
}

// Merges a batch into the table, and takes its ids out of the needed list.
#[unsafe(no_mangle)]
pub extern "C" fn recon_fold_commit(
    times: &mut [u64],
    ids: &mut [u8],
    items: usize,
    session: Session,
    needed: &mut [u8],
    batch_times: &[u64],
    batch_ids: &[u8],
) -> CommitAnswer
    ensures result_value { told_by result ≡ told_commit items (committed items (fold_lent times.old ids.old session needed.old) (lent batch_times.now batch_ids.now)) }
    ensures ids_after { lent times.new ids.new ≡ (committed items (fold_lent times.old ids.old session needed.old) (lent batch_times.now batch_ids.now)).lent.table }
    ensures needed_after { needed.new ≡ (committed items (fold_lent times.old ids.old session needed.old) (lent batch_times.now batch_ids.now)).lent.needed }
{
    let n = session.needed;
    let done = session.done;
    let outcome = commit(times, ids, items, needed, n, done, batch_times, batch_ids);
    tell_commit(items, session, outcome)
}
