// Words of 64 bits: their sums with a carry, and their bytes, the least significant first.
ghost use Rattle.std.specs.Prelude.{◌≡◌, ◌+◌, ◌*◌, ◌^◌, ◌≤◌, length, take, drop};
ghost use Rattle.std.specs.Int.{from_bool};
ghost use Rattle.writer.specs.Writing.{lay};
ghost use Rattle.label.specs.Label.{little_endian, low_bytes};
ghost use Rattle.label.specs.Code.{sum_in};

// A sum of two words and a carry, and the carry out of it. The compiler turns four of these in a row into an addition with carry; of `u64::carrying_add` it
// makes code that takes three times as long.
pub(crate) fn add_words(a: u64, b: u64, carry: bool) -> (u64, bool)
    ensures { result.0 + from_bool result.1 * 2 ^ 64 ≡ a + b + from_bool carry }
{
    let sum = a.wrapping_add(b);
    let total = sum.wrapping_add(carry as u64);
    (total, sum < a || total < sum)
}

// The word of the eight bytes of s from place `at` on. The compiler makes this one load, which it does not behind `copy_from_slice`.
pub(crate) fn word_at(s: &[u8], at: usize) -> u64
    requires { at + 8 ≤ length s.now }
    ensures { result ≡ little_endian (take 8 (drop at s.now)) }
{
    u64::from_le_bytes([
        s[at],
        s[at + 1],
        s[at + 2],
        s[at + 3],
        s[at + 4],
        s[at + 5],
        s[at + 6],
        s[at + 7],
    ])
}

// The number of the first 32 bytes, in four words.
pub(crate) fn words_at_start(s: &[u8]) -> [u64; 4]
    requires { 32 ≤ length s.now }
    ensures { sum_in result ≡ little_endian (take 32 s.now) }
{
    [word_at(s, 0), word_at(s, 8), word_at(s, 16), word_at(s, 24)]
}

// The 32 bytes of four words at the start of `out`.
pub(crate) fn write_words(out: &mut [u8], words: [u64; 4])
    requires { 32 ≤ length out.old }
    ensures { out.new ≡ lay (low_bytes 32 (sum_in words)) out.old }
{
    out[..8].copy_from_slice(&words[0].to_le_bytes());
    out[8..16].copy_from_slice(&words[1].to_le_bytes());
    out[16..24].copy_from_slice(&words[2].to_le_bytes());
    out[24..32].copy_from_slice(&words[3].to_le_bytes());
}
