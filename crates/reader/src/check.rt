// A whole message: the byte 61, then ranges up to the end.
ghost use Rattle.std.specs.Prelude.{◌≡◌};
ghost use Rattle.message.specs.Message.{read_message};
ghost use Rattle.reader.specs.Answers.{message_read, counted};

use crate::range::RangeCursor;
use message::Refusal;

// How many ranges a message has, or the first fault met.
pub fn check_message(m: &[u8]) -> Result<usize, Refusal>
    ensures { message_read result ≡ counted (read_message m.now) }
{
    if m.first() != Some(&0x61) {
        return Err(Refusal::WrongVersion);
    }
    let mut cursor = RangeCursor::START;
    let mut count = 0;
    while cursor.at < m.len() {
        cursor = cursor.range(m)?.next;
        count += 1;
    }
    Ok(count)
}
