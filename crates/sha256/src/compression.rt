// FIPS 180-4, section 6.2.2: a block of 64 bytes is taken into the hash value.
ghost use Rattle.std.specs.Prelude.{◌≡◌, ℕ, List, ◌+◌, ◌*◌, length, drop};
ghost use Rattle.std.specs.Simd.{first_chunks};
ghost use Rattle.sha256.specs.Fips180 as fips;
ghost use Rattle.sha256.specs.Private.{value_of};

use super::functions::{big_sigma0, big_sigma1, choose, majority, small_sigma0, small_sigma1};

// Section 4.2.2: the constants of the rounds.
static CONSTANTS: [u32; 64] = [
    0x428a_2f98,
    0x7137_4491,
    0xb5c0_fbcf,
    0xe9b5_dba5,
    0x3956_c25b,
    0x59f1_11f1,
    0x923f_82a4,
    0xab1c_5ed5,
    0xd807_aa98,
    0x1283_5b01,
    0x2431_85be,
    0x550c_7dc3,
    0x72be_5d74,
    0x80de_b1fe,
    0x9bdc_06a7,
    0xc19b_f174,
    0xe49b_69c1,
    0xefbe_4786,
    0x0fc1_9dc6,
    0x240c_a1cc,
    0x2de9_2c6f,
    0x4a74_84aa,
    0x5cb0_a9dc,
    0x76f9_88da,
    0x983e_5152,
    0xa831_c66d,
    0xb003_27c8,
    0xbf59_7fc7,
    0xc6e0_0bf3,
    0xd5a7_9147,
    0x06ca_6351,
    0x1429_2967,
    0x27b7_0a85,
    0x2e1b_2138,
    0x4d2c_6dfc,
    0x5338_0d13,
    0x650a_7354,
    0x766a_0abb,
    0x81c2_c92e,
    0x9272_2c85,
    0xa2bf_e8a1,
    0xa81a_664b,
    0xc24b_8b70,
    0xc76c_51a3,
    0xd192_e819,
    0xd699_0624,
    0xf40e_3585,
    0x106a_a070,
    0x19a4_c116,
    0x1e37_6c08,
    0x2748_774c,
    0x34b0_bcb5,
    0x391c_0cb3,
    0x4ed8_aa4a,
    0x5b9c_ca4f,
    0x682e_6ff3,
    0x748f_82ee,
    0x78a5_636f,
    0x84c8_7814,
    0x8cc7_0208,
    0x90be_fffa,
    0xa450_6ceb,
    0xbef9_a3f7,
    0xc671_78f2,
];

// One round on the eight working variables, with its constant k and its word w of the schedule.
fn round(v: &mut [u32; 8], k: u32, w: u32)
    ensures { value_of v.new ≡ fips.round k w (value_of v.old) }
{
    let [a, b, c, d, e, f, g, h] = *v;
    let t1 = h
        .wrapping_add(big_sigma1(e))
        .wrapping_add(choose(e, f, g))
        .wrapping_add(k)
        .wrapping_add(w);
    let t2 = big_sigma0(a).wrapping_add(majority(a, b, c));
    *v = [t1.wrapping_add(t2), a, b, c, d.wrapping_add(t1), e, f, g];
}

// The 64 rounds over the schedule w.
fn rounds(v: &mut [u32; 8], w: &[u32; 64])
    ensures { value_of v.new ≡ fips.rounds 64 w.now (value_of v.old) }
{
    // Eight rounds a turn, after which each working variable is back in its place: the compiler unrolls them, and one loop takes 1.15 times as long.
    for turn in 0..8 {
        for t in 8 * turn..8 * turn + 8 {
            round(v, CONSTANTS[t], w[t]);
        }
    }
}

// The schedule of a block.
fn schedule(block: &[u8; 64]) -> [u32; 64]
    ensures { result ≡ fips.schedule block.now }
{
    let mut w = [0; 64];
    let (words, _) = block.as_chunks();
    for (t, word) in words.iter().enumerate() {
        w[t] = u32::from_be_bytes(*word);
    }
    for t in 16..64 {
        w[t] = small_sigma1(w[t - 2])
            .wrapping_add(w[t - 7])
            .wrapping_add(small_sigma0(w[t - 15]))
            .wrapping_add(w[t - 16]);
    }
    w
}

// Takes a block into the hash value.
fn compress(state: &mut [u32; 8], block: &[u8; 64])
    ensures { value_of state.new ≡ fips.compress (value_of state.old) block.now }
{
    let mut v = *state;
    rounds(&mut v, &schedule(block));
    for (i, x) in v.iter().enumerate() {
        state[i] = state[i].wrapping_add(*x);
    }
}

// Takes blocks into the hash value. If that was the one after the first k blocks of p, and these come next in p, it is then the one after them.
pub fn compress_all(state: &mut [u32; 8], blocks: &[[u8; 64]])
    ensures { (p : List ℕ) (k : ℕ) → value_of state.old ≡ fips.blocks k p → blocks.now ≡ first_chunks 64 (length blocks.now) (drop (k * 64) p)
        → value_of state.new ≡ fips.blocks (k + length blocks.now) p }
{
    for block in blocks {
        compress(state, block);
    }
}
