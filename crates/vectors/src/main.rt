// Writes a line for each of some messages: its SHA-256 digest in hexadecimal, two spaces and what the message is. The messages are
// the vectors of FIPS 180-4, and every length that meets the padding in another place. tests/vectors makes the same lines by sha256sum.
#![tactic(auto)]

use std::alloc::{AllocError, Global};
use std::{array, io};

fn print(rt: &impl Print, m: &[u8], name: &str) -> io::Result<()> {
    for x in sha256::digest(m) {
        print!(rt; "{x:02x}")?;
    }
    println!(rt; "  {name}")
}

// Bytes that differ from their neighbours.
fn pattern() -> [u8; 130] {
    array::from_fn(|i| ((i * 7 + 3) % 256) as u8)
}

// The digests of the first 0, 1, .. and 130 bytes of the pattern, one behind the other.
fn all_lengths() -> [u8; 4192] {
    let p = pattern();
    let mut all = [0; 4192];
    for n in 0..131 {
        all[32 * n..32 * n + 32].copy_from_slice(&sha256::digest(&p[..n]));
    }
    all
}

fn million(alloc: Global) -> Result<Vec<u8>, AllocError> {
    vec![in alloc; b'a'; 1_000_000]
}

fn main(rt: HostRuntime) -> io::Result<()> {
    print(&rt, b"", "empty")?;
    print(&rt, b"abc", "abc")?;
    let m448 = b"abcdbcdecdefdefgefghfghighijhijkijkljklmklmnlmnomnopnopq";
    print(&rt, m448, "448 bits")?;
    let m896 =
        b"abcdefghbcdefghicdefghijdefghijkefghijklfghijklmghijklmnhijklmnoijklmnopjklmnopqklmnopqrlmnopqrsmnopqrstnopqrstu";
    print(&rt, m896, "896 bits")?;
    print(&rt, &million(rt.alloc())?, "a million times a")?;
    print(&rt, &all_lengths(), "the digests of 131 lengths")
}
