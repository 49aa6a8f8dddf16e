// The judge of replies, for C and Rust.
ghost use Rattle.std.specs.Prelude.{◌≡◌};
ghost use Rattle.table.specs.Code.{answer_of, lent};
ghost use Rattle.judge.specs.Judge.{judged};
ghost use Rattle.capi.specs.Judgements.{told_judgement};

use judging::judge_reply;
use table::Refusal;

// The number of the refusal, 0 for none, and whether the reply is approved.
#[repr(C)]
#[derive(Clone, Copy)]
pub struct Judgement {
    pub refusal: u64,
    pub approved: bool,
}

// A verdict, in numbers.
fn tell_judgement(verdict: Result<bool, Refusal>) -> Judgement
    ensures { result ≡ told_judgement (answer_of verdict) }
{
    match verdict {
        Ok(approved) => Judgement {
            refusal: 0,
            approved,
        },
        Err(refusal) => Judgement {
            refusal: refusal.number(),
            approved: false,
        },
    }
}

// Whether a reply is one that a responder with this table may give to the query.
#[unsafe(no_mangle)]
pub extern "C" fn recon_judge(times: &[u64], ids: &[u8], query: &[u8], reply: &[u8]) -> Judgement
    ensures { result ≡ told_judgement (judged (lent times.now ids.now) query.now reply.now) }
{
    tell_judgement(judge_reply(times, ids, query, reply))
}
