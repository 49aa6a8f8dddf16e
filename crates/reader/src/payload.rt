// Payloads: a mode, then what it carries.
ghost use Rattle.std.specs.Prelude.{◌≡◌, drop};
ghost use Rattle.message.specs.Message.{read_of_mode, read_payload};
ghost use Rattle.reader.specs.Answers.{payload_read, PayloadPlaced};

use crate::varint::{Cursor, Read};
use message::{Payload, Refusal};

impl Cursor {
    pub(crate) fn fingerprint(self, m: &[u8]) -> Result<Read<Payload>, Refusal>
        ensures { (payload_read m.now result ≡ read_of_mode 1 (drop self.at m.now)) × PayloadPlaced m.now result }
    {
        let at = self.at;
        if m.len() < at || m.len() - at < 16 {
            return Err(Refusal::Truncated);
        }
        Ok(Read {
            value: Payload::Fingerprint { at },
            next: Cursor { at: at + 16 },
        })
    }

    pub(crate) fn ids(self, m: &[u8]) -> Result<Read<Payload>, Refusal>
        ensures { (payload_read m.now result ≡ read_of_mode 2 (drop self.at m.now)) × PayloadPlaced m.now result }
    {
        let Read { value, next } = self.varint(m)?;
        let at = next.at;
        let count = value as usize;
        if (m.len() - at) / 32 < count {
            return Err(Refusal::Truncated);
        }
        Ok(Read {
            value: Payload::Ids { count, at },
            next: Cursor {
                at: at + count * 32,
            },
        })
    }

    pub fn payload(self, m: &[u8]) -> Result<Read<Payload>, Refusal>
        ensures { (payload_read m.now result ≡ read_payload (drop self.at m.now)) × PayloadPlaced m.now result }
    {
        let Read { value: mode, next } = self.varint(m)?;
        match mode {
            0 => Ok(Read {
                value: Payload::Skip,
                next,
            }),
            1 => next.fingerprint(m),
            2 => next.ids(m),
            _ => Err(Refusal::BadMode),
        }
    }
}
