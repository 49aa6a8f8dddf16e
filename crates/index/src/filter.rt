// A filter beside an index: a byte for each value that the lowest bits of a word can have, 1 where the index has such a word. Most ids that an index does not have
// are told by one byte.
ghost use Rattle.std.specs.Prelude.{ℕ, ◌+◌, ◌*◌, ◌≤◌, ◌<◌, ◌≡◌, true, false, length, drop, get_or, IfSome};
ghost use Rattle.message.specs.Bound.{big_endian};
ghost use Rattle.index.specs.Filter.{slot_of, Filtered, Rises, Outside};

use table::compare::word;

// The byte of a filter that stands for a word.
fn slot(word: u64) -> usize
    ensures { (result ≡ slot_of word) × (result < 32768) }
{
    (word % 32768) as usize
}

// Makes a filter of the first n words, where there is room for one and it is worth its time: for many searches only.
pub(crate) fn make_filter<'a>(
    words: &[u64],
    n: usize,
    room: &'a mut [u8],
    searches: usize,
) -> Option<&'a [u8]>
    requires { n ≤ length words.now }
    ensures { IfSome result (λ f. Filtered words.now n f.now) }
{
    if searches < 4096 || room.len() < 32768 {
        return None;
    }
    room[..32768].fill(0);
    for word in &words[..n] {
        room[slot(*word)] = 1;
    }
    Some(room)
}

// Whether it is certain that the first n words, sorted, do not have a word: it lies outside of them, or there is a filter that has nothing for it.
pub(crate) fn surely_lacks(words: &[u64], n: usize, filter: Option<&[u8]>, word: u64) -> bool
    requires { (0 < n) × (n ≤ length words.now) × Rises words.now n × IfSome filter (λ f. Filtered words.now n f.now) }
    ensures { result ≡ true → (k : ℕ) → k < n → get_or words.now k 0 ≡ word → ⊥ }
{
    word < words[0] || words[n - 1] < word || filter.is_some_and(|f| f[slot(word)] == 0)
}

// Whether a word lies from `low` to `high`.
pub(crate) fn lies_inside(word: u64, low: u64, high: u64) -> bool
    ensures { result ≡ false → Outside low high word }
{
    low <= word && word <= high
}

// The first of the ids from number j on whose word lies from `low` to `high`, or `count` where none does.
pub fn next_inside(list: &[u8], j: usize, count: usize, low: u64, high: u64) -> usize
    requires { (j ≤ count) × (count * 32 ≤ length list.now) }
    ensures { (j ≤ result) × (result ≤ count) × ((i : ℕ) → j ≤ i → i < result → Outside low high (big_endian 8 (drop (i * 32) list.now))) }
{
    for i in j..count {
        if lies_inside(word(list, i * 32), low, high) {
            return i;
        }
    }
    count
}
