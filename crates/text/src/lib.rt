// The text that `showmsg` prints.
#![tactic(auto)]

pub mod show;

ghost use Rattle.std.specs.Prelude.{◌+◌, ◌*◌, ◌≤◌, ◌<◌, ◌≡◌, [], ◌∷◌, ◌++◌, length, take, drop};
ghost use Rattle.message.specs.Code.{bound_of, payload_of, range_of};
ghost use Rattle.message.specs.declared.Payload.{Payload};
ghost use Rattle.text.specs.Text as spec;
ghost use Rattle.text.specs.Text.{put};
ghost use Rattle.text.specs.Private.{spaced, payload_fields};

use message::{Bound, Payload, Range};

fn digit(d: u8) -> u8
    requires { d < 16 }
    ensures { result ≡ spec.digit d }
{
    if d < 10 { b'0' + d } else { b'a' - 10 + d }
}

// The n bytes at place `at`, or as many of them as there are.
fn part(m: &[u8], at: usize, n: usize) -> &[u8]
    ensures { result.now ≡ take n (drop at m.now) }
{
    let rest = m.get(at..).unwrap_or(&[]);
    &rest[..n.min(rest.len())]
}

// Writes s at the start of `out`, and answers how many bytes that are.
#[tactic(auto, unfolding(crate::specs::Text::put))]
pub(crate) fn copy(s: &[u8], out: &mut [u8]) -> usize
    requires { length s.now ≤ length out.old }
    ensures value { result ≡ length s.now }
    ensures out_after { out.new ≡ put s.now out.old }
{
    out[..s.len()].copy_from_slice(s);
    s.len()
}

// A number in decimal: the digits before the last one, then the last one.
fn put_digits(out: &mut [u8], n: u64) -> usize
    requires { 20 ≤ length out.old }
    ensures value { (result ≡ length (spec.decimal n)) × (result ≤ 20) }
    ensures out_after { out.new ≡ put (spec.decimal n) out.old }
{
    if n < 10 {
        out[0] = digit(n as u8);
        return 1;
    }
    let k = put_digits(out, n / 10);
    out[k] = digit((n % 10) as u8);
    k + 1
}

// A number in decimal, and the code behind it.
fn put_decimal(out: &mut [u8], n: u64, end: u8) -> usize
    requires { 21 ≤ length out.old }
    ensures value { (result ≡ length (spec.decimal n ++ (end ∷ []))) × (result ≤ 21) }
    ensures out_after { out.new ≡ put (spec.decimal n ++ (end ∷ [])) out.old }
{
    let k = put_digits(out, n);
    out[k] = end;
    k + 1
}

fn put_pairs(out: &mut [u8], s: &[u8])
    requires { length s.now * 2 ≤ length out.old }
    ensures { out.new ≡ put (spec.hex s.now) out.old }
{
    for (i, b) in s.iter().enumerate() {
        out[i * 2] = digit(b / 16);
        out[i * 2 + 1] = digit(b % 16);
    }
}

// At most 32 bytes in hex, and the code behind them.
fn put_hex(out: &mut [u8], s: &[u8], end: u8) -> usize
    requires { (length s.now ≤ 32) × (length s.now * 2 + 1 ≤ length out.old) }
    ensures value { (result ≡ length (spec.hex s.now ++ (end ∷ []))) × (result ≡ length s.now * 2 + 1) }
    ensures out_after { out.new ≡ put (spec.hex s.now ++ (end ∷ [])) out.old }
{
    put_pairs(out, s);
    let k = s.len() * 2;
    out[k] = end;
    k + 1
}

fn put_time(out: &mut [u8], bound: Bound) -> usize
    requires { 21 ≤ length out.old }
    ensures value { (result ≡ length (spaced (spec.time_field (bound_of bound [])))) × (result ≤ 21) }
    ensures out_after { out.new ≡ put (spaced (spec.time_field (bound_of bound []))) out.old }
{
    match bound {
        Bound::Infinity => copy(b"inf ", out),
        Bound::At { time, .. } => put_decimal(out, time, b' '),
    }
}

fn put_prefix(out: &mut [u8], p: &[u8]) -> usize
    requires { (length p.now ≤ 32) × (65 ≤ length out.old) }
    ensures value { (result ≡ length (spaced (spec.prefix_field p.now))) × (result ≤ 65) }
    ensures out_after { out.new ≡ put (spaced (spec.prefix_field p.now)) out.old }
{
    if p.is_empty() {
        copy(b"- ", out)
    } else {
        put_hex(out, p, b' ')
    }
}

fn put_fingerprint(out: &mut [u8], at: usize, m: &[u8]) -> usize
    requires { 45 ≤ length out.old }
    ensures value { (result ≡ length (payload_fields (payload_of (Payload.Fingerprint at) m.now))) × (result ≤ 45) }
    ensures out_after { out.new ≡ put (payload_fields (payload_of (Payload.Fingerprint at) m.now)) out.old }
{
    let k = copy(b"fingerprint ", out);
    k + put_hex(&mut out[k..], part(m, at, 16), b'\n')
}

fn put_ids(out: &mut [u8], count: usize, at: usize, m: &[u8]) -> usize
    requires { 45 ≤ length out.old }
    ensures value { (result ≡ length (payload_fields (payload_of (Payload.Ids count at) m.now))) × (result ≤ 45) }
    ensures out_after { out.new ≡ put (payload_fields (payload_of (Payload.Ids count at) m.now)) out.old }
{
    let k = copy(b"ids ", out);
    k + put_decimal(&mut out[k..], count as u64, b'\n')
}

fn put_payload(out: &mut [u8], payload: Payload, m: &[u8]) -> usize
    requires { 45 ≤ length out.old }
    ensures value { (result ≡ length (payload_fields (payload_of payload m.now))) × (result ≤ 45) }
    ensures out_after { out.new ≡ put (payload_fields (payload_of payload m.now)) out.old }
{
    match payload {
        Payload::Skip => copy(b"skip -\n", out),
        Payload::Fingerprint { at } => put_fingerprint(out, at, m),
        Payload::Ids { count, at } => put_ids(out, count, at, m),
    }
}

// The line of a range whose payload is in m. The longest, of 20 digits, 64 and 32 hex digits, takes 131 bytes.
pub(crate) fn put_line(out: &mut [u8], range: Range, m: &[u8]) -> usize
    requires { 131 ≤ length out.old }
    ensures value { (result ≡ length (spec.line (range_of range m.now))) × (result ≤ 131) }
    ensures out_after { out.new ≡ put (spec.line (range_of range m.now)) out.old }
{
    let a = put_time(out, range.bound);
    let b = a + put_prefix(&mut out[a..], range.bound.prefix(&range.prefix));
    b + put_payload(&mut out[b..], range.payload, m)
}

pub(crate) fn put_refusal(out: &mut [u8], n: u64) -> usize
    requires { 131 ≤ length out.old }
    ensures value { (result ≡ length (spec.refusal_line n)) × (result ≤ 131) }
    ensures out_after { out.new ≡ put (spec.refusal_line n) out.old }
{
    let k = copy(b"refused ", out);
    k + put_decimal(&mut out[k..], n, b'\n')
}
