// Marks of one bit each, eight to a byte.
ghost use Rattle.std.specs.Prelude.{◌*◌, ◌≤◌, ◌<◌, ◌≡◌, min, length, take, get_or, set};
ghost use Rattle.ends.specs.Opener.{ones};
ghost use Rattle.removal.specs.Removing.{bits_in};

// Bit number k.
pub(crate) fn bit(marks: &[u8], k: usize) -> u8
    requires { k < length marks.now * 8 }
    ensures { result ≡ get_or (bits_in marks.now) k 0 }
{
    (marks[k / 8] >> (k % 8)) % 2
}

// Bit number k becomes 1.
pub(crate) fn set_bit(marks: &mut [u8], k: usize)
    requires { k < length marks.old * 8 }
    ensures { bits_in marks.new ≡ set (bits_in marks.old) k 1 }
{
    marks[k / 8] |= 1 << (k % 8);
}

// How many of the first `count` bits are 1.
pub(crate) fn count_bits(marks: &[u8], count: usize) -> usize
    requires { count ≤ length marks.now * 8 }
    ensures { result ≡ ones (take count (bits_in marks.now)) }
{
    let mut sum = 0;
    for k in 0..count {
        if bit(marks, k) == 1 {
            sum += 1;
        }
    }
    sum
}

// How many of so many bits have room in so many bytes.
pub(crate) fn fitting(count: usize, bytes: usize) -> usize
    ensures { result ≡ min count (bytes * 8) }
{
    count.min(bytes.saturating_mul(8))
}
