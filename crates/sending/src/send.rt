// Messages measured and then sent.
ghost use Rattle.std.specs.Prelude.{◌<◌, ◌≡◌, false, length};
ghost use Rattle.message.specs.Meaning.{write_message};
ghost use Rattle.table.specs.Table.{items};
ghost use Rattle.table.specs.Code.{lent};
ghost use Rattle.table.specs.Private.{Passed};
ghost use Rattle.cutting.specs.Cutting.{outside_limits};
ghost use Rattle.cutting.specs.Code.{cut_of};
ghost use Rattle.limit.specs.Limit.{bytes, below_least, sent_message};
ghost use Rattle.shorten.specs.Code.{limit_of};
ghost use Rattle.sending.specs.Private.{Walks, to_send, Sends};

use crate::Kind;
use crate::put::{measure, write};
use crate::stop::stop_message;
use cutting::Cut;
use shorten::{close, put_closing};
use table::Refusal;
use writer::write::Pass;

// Sends a message of `size` bytes as it is.
fn send_whole(
    kind: Kind,
    times: &[u64],
    own: &[u8],
    cut: Cut,
    m: &[u8],
    size: usize,
    out: &mut [u8],
) -> Result<usize, Refusal>
    requires { Passed (lent times.now own.now) × (outside_limits (cut_of cut) ≡ false) × Walks kind (lent times.now own.now) m.now × (size ≡ length (write_message (to_send kind (cut_of cut) (lent times.now own.now) m.now))) }
    ensures { Sends (write_message (to_send kind (cut_of cut) (lent times.now own.now) m.now)) out.old result out.new }
{
    if out.len() < size {
        return Err(Refusal::NoRoom);
    }
    write(kind, times, own, cut, m, out).1?;
    Ok(size)
}

// Sends a message that would exceed `most` bytes, cut short. Of these 19 are kept for the last fingerprint range.
fn send_short(
    kind: Kind,
    times: &[u64],
    own: &[u8],
    cut: Cut,
    m: &[u8],
    most: usize,
    out: &mut [u8],
) -> Result<usize, Refusal>
    requires { Passed (lent times.now own.now) × (outside_limits (cut_of cut) ≡ false) × Walks kind (lent times.now own.now) m.now × (below_least (bytes most) ≡ false) × (most < length (write_message (to_send kind (cut_of cut) (lent times.now own.now) m.now))) }
    ensures { Sends (sent_message (bytes most) (items (lent times.now own.now)) (to_send kind (cut_of cut) (lent times.now own.now) m.now)) out.old result out.new }
{
    let size = most - 19;
    let stop = stop_message(kind, times, own, cut, m, size);
    let closing = close(stop, size, times, own);
    let pass = Pass::Measure { size: most };
    let mut end = closing.writer;
    put_closing(&mut end, &mut [], pass, times, own, closing)?;
    if out.len() < end.at {
        return Err(Refusal::NoRoom);
    }
    let mut writer = closing.writer;
    // The run fills this part: the range behind it is refused.
    let _ = write(kind, times, own, cut, m, &mut out[..writer.at]);
    put_closing(&mut writer, out, Pass::Write, times, own, closing)?;
    Ok(end.at)
}

// Sends a message at the start of `out`, within the limit: its length, or refusal 12, which changes no byte. Bytes of `out` behind the message stay as they are.
pub fn send(
    kind: Kind,
    times: &[u64],
    own: &[u8],
    cut: Cut,
    limit: Option<usize>,
    m: &[u8],
    out: &mut [u8],
) -> Result<usize, Refusal>
    requires { Passed (lent times.now own.now) × (outside_limits (cut_of cut) ≡ false) × Walks kind (lent times.now own.now) m.now × (below_least (limit_of limit) ≡ false) }
    ensures { Sends (sent_message (limit_of limit) (items (lent times.now own.now)) (to_send kind (cut_of cut) (lent times.now own.now) m.now)) out.old result out.new }
{
    match limit {
        None => {
            let Some(size) = measure(kind, times, own, cut, m, out.len()) else {
                return Err(Refusal::NoRoom);
            };
            send_whole(kind, times, own, cut, m, size, out)
        }
        Some(most) => match measure(kind, times, own, cut, m, most) {
            Some(size) => send_whole(kind, times, own, cut, m, size, out),
            None => send_short(kind, times, own, cut, m, most, out),
        },
    }
}
