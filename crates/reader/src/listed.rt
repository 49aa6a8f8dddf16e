// The ids that a range lists.
ghost use Rattle.std.specs.Prelude.{◌+◌, ◌*◌, ◌≡◌, drop};

// The part of the message that begins at the first byte of the id number i of those that begin at place `at`; it is empty behind the end.
pub fn listed_id(m: &[u8], at: usize, i: usize) -> &[u8]
    ensures { result.now ≡ drop (at + i * 32) m.now }
{
    if m.len() < at || (m.len() - at) / 32 < i {
        return &[];
    }
    &m[at + i * 32..]
}
