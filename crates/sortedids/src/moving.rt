// Bytes moved in a buffer, and ids written into it.
ghost use Rattle.std.specs.Prelude.{◌+◌, ◌-◌, ◌≤◌, ◌≡◌, ◌++◌, length, take, drop};

// Moves the bytes from place `first` up to place `end` on by `by` places.
pub fn shift(list: &mut [u8], first: usize, end: usize, by: usize)
    requires { (first ≤ end) × (end + by ≤ length list.old) }
    ensures { list.new ≡ take (first + by) list.old ++ (take (end - first) (drop first list.old) ++ drop (end + by) list.old) }
{
    list.copy_within(first..end, first + by);
}

// The id that begins a slice, written at a place.
pub fn put_id(list: &mut [u8], at: usize, id: &[u8])
    requires { (at + 32 ≤ length list.old) × (32 ≤ length id.now) }
    ensures { list.new ≡ take at list.old ++ (take 32 id.now ++ drop (at + 32) list.old) }
{
    list[at..at + 32].copy_from_slice(&id[..32]);
}
