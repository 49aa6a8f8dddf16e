// The message layer, first crate: the definitions stand in specs/, the laws of the format in proofs/, and here the forms in which code
// holds what a message says. The crates `reader` and `writer` are built on it.
#![tactic(auto)]

ghost use Rattle.std.specs.Prelude.{◌≡◌, [], ltb, get_or};
ghost use Rattle.message.specs.Bound as spec;
ghost use Rattle.message.specs.Code.{number_of, bound_of};

// Why a call of the message layer is refused, each kind with its number.
#[derive(Clone, Copy, Debug, PartialEq, Eq)]
pub enum Refusal {
    // the message is empty or its first byte is not 61
    WrongVersion = 6,
    // the message ends inside a range
    Truncated = 7,
    // a varint starts with 80 or passes 2^64 - 1
    BadVarint = 8,
    // a bound has a time or a prefix that it cannot have, or is not above its lower bound
    BadBound = 9,
    // a mode is above 2
    BadMode = 10,
    // the message to be written is longer than the out buffer
    NoRoom = 12,
}

impl Refusal {
    // Its number.
    pub fn number(self) -> u64
        ensures { result ≡ number_of self }
    {
        self as u64
    }
}

// A bound: infinity, or a time and the length of a prefix, whose bytes are kept beside it.
#[derive(Clone, Copy)]
pub enum Bound {
    Infinity,
    At { time: u64, len: usize },
}

// A payload. The 16 bytes of a fingerprint, or the ids of 32 bytes each, begin at a place of a slice that is handed along.
#[derive(Clone, Copy)]
pub enum Payload {
    Skip,
    Fingerprint { at: usize },
    Ids { count: usize, at: usize },
}

// A range: its upper bound with the bytes of its prefix beside it, and its payload.
#[derive(Clone, Copy)]
pub struct Range {
    pub bound: Bound,
    pub prefix: [u8; 32],
    pub payload: Payload,
}

impl Bound {
    // The time; that of infinity is 2^64 - 1, which no item has.
    pub fn time(self) -> u64
        ensures { result ≡ spec.time (bound_of self []) }
    {
        match self {
            Bound::Infinity => u64::MAX,
            Bound::At { time, .. } => time,
        }
    }

    // The prefix: a part of the bytes beside the bound.
    pub fn prefix(self, bytes: &[u8]) -> &[u8]
        ensures { result.now ≡ spec.prefix (bound_of self bytes.now) }
    {
        match self {
            Bound::Infinity => &bytes[..0],
            Bound::At { len, .. } => &bytes[..len.min(bytes.len())],
        }
    }
}

// Whether the prefix p comes before the prefix q: byte by byte from the first, a missing byte 00.
fn prefix_below(p: &[u8], q: &[u8]) -> bool
    ensures { result ≡ ltb (spec.big_endian 32 p.now) (spec.big_endian 32 q.now) }
{
    for i in 0..32 {
        let x = p.get(i).copied().unwrap_or(0);
        let y = q.get(i).copied().unwrap_or(0);
        if x != y {
            return x < y;
        }
    }
    false
}

// Whether the bound of time t and prefix p is below that of time u and prefix q.
pub fn below(t: u64, p: &[u8], u: u64, q: &[u8]) -> bool
    ensures { result ≡ ltb (spec.key (spec.finite t p.now)) (spec.key (spec.finite u q.now)) }
{
    t < u || t == u && prefix_below(p, q)
}
