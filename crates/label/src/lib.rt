// Labels of ranges of items: the sum of their ids modulo 2^256 and how many there are. And the fingerprint of a label.
#![tactic(auto)]

ghost use Rattle.std.specs.Prelude.{◌≡◌, take};
ghost use Rattle.label.specs.Label as spec;
ghost use Rattle.label.specs.Code.{label_in, whole_ids, label_from, label_into};

use crate::word::{add_words, word_at, words_at_start, write_words};
use sha256::digest;
use writer::varint::{width, write_varint};

mod word;

// The sum is four words, the least significant first.
#[derive(Clone, Copy, PartialEq, Eq)]
pub struct Label {
    pub sum: [u64; 4],
    pub count: u64,
}

impl Label {
    // The label of no items.
    pub const EMPTY: Label = Label {
        sum: [0; 4],
        count: 0,
    };

    // The label of the item whose id is the first 32 bytes of `id`; of none where there are fewer.
    pub fn of_id(id: &[u8]) -> Label
        ensures { label_in result ≡ spec.label_of (whole_ids (take 32 id.now)) }
    {
        if id.len() < 32 {
            Label::EMPTY
        } else {
            Label {
                sum: words_at_start(id),
                count: 1,
            }
        }
    }

    // The label of two ranges together.
    pub fn add(self, other: Label) -> Label
        ensures { label_in result ≡ spec.add (label_in self) (label_in other) }
    {
        let (a, carry) = add_words(self.sum[0], other.sum[0], false);
        let (b, carry) = add_words(self.sum[1], other.sum[1], carry);
        let (c, carry) = add_words(self.sum[2], other.sum[2], carry);
        let (d, _) = add_words(self.sum[3], other.sum[3], carry);
        Label {
            sum: [a, b, c, d],
            count: self.count.wrapping_add(other.count),
        }
    }

    // The label of the items whose ids stand one behind another.
    pub fn of_ids(ids: &[u8]) -> Label
        ensures { label_in result ≡ spec.label_of (whole_ids ids.now) }
    {
        let mut label = Label::EMPTY;
        for id in ids.chunks_exact(32) {
            label = label.add(Label::of_id(id));
        }
        label
    }

    // Whether two labels are the same.
    pub fn same(self, other: Label) -> bool
        ensures { result ≡ spec.same_label (label_in self) (label_in other) }
    {
        self == other
    }

    // The fingerprint: what is hashed are the sum, least significant byte first, and the count as a varint. Both fit the array.
    pub fn fingerprint(self) -> [u8; 16]
        ensures { result ≡ spec.fingerprint (label_in self) }
    {
        let mut bytes = [0; 42];
        let end = 32 + width(self.count);
        write_words(&mut bytes, self.sum);
        let _ = write_varint(&mut bytes[32..], self.count);
        let hash = digest(&bytes[..end]);
        let mut half = [0; 16];
        half.copy_from_slice(&hash[..16]);
        half
    }

    // The label that the first 40 bytes spell; the empty one where there are fewer.
    pub fn read(bytes: &[u8]) -> Label
        ensures { label_in result ≡ label_from bytes.now }
    {
        if bytes.len() < 40 {
            Label::EMPTY
        } else {
            Label {
                sum: words_at_start(bytes),
                count: word_at(bytes, 32),
            }
        }
    }

    // Spells the label in the first 40 bytes; where there are fewer, nothing is written.
    pub fn write(self, out: &mut [u8])
        ensures { out.new ≡ label_into (label_in self) out.old }
    {
        if out.len() >= 40 {
            write_words(out, self.sum);
            out[32..40].copy_from_slice(&self.count.to_le_bytes());
        }
    }
}
