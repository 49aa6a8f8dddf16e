// SHA-256 of a byte string, as FIPS 180-4 has it. The one function that a user calls is `digest`.
#![tactic(auto)]

ghost use Rattle.std.specs.Prelude.{◌≡◌, length, take};
ghost use Rattle.sha256.specs.Fips180 as fips;
ghost use Rattle.sha256.specs.Private.{value_of, rest};

mod compression;
mod functions;

use compression::compress_all;

// Section 5.3.3: the initial hash value.
const INITIAL: [u32; 8] = [
    0x6a09_e667,
    0xbb67_ae85,
    0x3c6e_f372,
    0xa54f_f53a,
    0x510e_527f,
    0x9b05_688c,
    0x1f83_d9ab,
    0x5be0_cd19,
];

// What the padded message has behind the whole blocks of m: one block or two, at the front of the array, and their length.
fn last_blocks(m: &[u8]) -> ([u8; 128], usize)
    ensures bytes { take result.1 result.0 ≡ rest m.now }
    ensures len { result.1 ≡ length (rest m.now) }
{
    let (_, tail) = m.as_chunks::<64>();
    let n = tail.len();
    let mut b = [0; 128];
    b[..n].copy_from_slice(tail);
    b[n] = 0x80;
    // Modulo 2^64, as the definition has it.
    let bits = (m.len() as u64).wrapping_mul(8);
    let end = if n < 56 { 64 } else { 128 };
    b[end - 8..end].copy_from_slice(&bits.to_be_bytes());
    (b, end)
}

// The bytes of a hash value.
fn bytes_of(state: &[u32; 8]) -> [u8; 32]
    ensures { result ≡ fips.value_bytes (value_of state.now) }
{
    let mut out = [0; 32];
    for (i, word) in state.iter().enumerate() {
        out[4 * i..4 * i + 4].copy_from_slice(&word.to_be_bytes());
    }
    out
}

// The message digest of m.
pub fn digest(m: &[u8]) -> [u8; 32]
    ensures { result ≡ fips.digest m.now }
{
    let mut state = INITIAL;
    let (whole, _) = m.as_chunks();
    compress_all(&mut state, whole);
    let (b, end) = last_blocks(m);
    let (last, _) = b[..end].as_chunks();
    compress_all(&mut state, last);
    bytes_of(&state)
}
