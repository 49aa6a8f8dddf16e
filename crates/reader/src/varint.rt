// Varints: base 128, most significant digit first, as few digits as possible, values below 2^64.
ghost use Rattle.std.specs.Prelude.{◌≡◌, drop};
ghost use Rattle.message.specs.Varint.{read_varint};
ghost use Rattle.reader.specs.Answers.{varint_read, VarintPlaced};

use message::Refusal;

// A place in a message.
#[derive(Clone, Copy)]
pub struct Cursor {
    pub at: usize,
}

// A value that was read, and the cursor behind it.
#[derive(Clone, Copy)]
pub struct Read<T> {
    pub value: T,
    pub next: Cursor,
}

impl Cursor {
    pub fn varint(self, m: &[u8]) -> Result<Read<u64>, Refusal>
        ensures { (varint_read m.now result ≡ read_varint (drop self.at m.now)) × VarintPlaced m.now result }
    {
        if m.get(self.at) == Some(&128) {
            return Err(Refusal::BadVarint);
        }
        let mut value: u64 = 0;
        for i in self.at..m.len() {
            // one digit more would pass 2^64 - 1
            if u64::MAX / 128 < value {
                return Err(Refusal::BadVarint);
            }
            value = value * 128 + (m[i] % 128) as u64;
            if m[i] < 128 {
                return Ok(Read {
                    value,
                    next: Cursor { at: i + 1 },
                });
            }
        }
        Err(Refusal::Truncated)
    }
}
