// The labels of a tree by their numbers, 40 bytes each. They are read and written as parts of just 40 bytes, so that the compiler sees that no further check
// of the length is needed.
ghost use Rattle.std.specs.Prelude.{◌≡◌, ◌+◌, ◌*◌, ◌≤◌, length};
ghost use Rattle.label.specs.Code.{label_in};
ghost use Rattle.tree.specs.Tree as spec;

use label::Label;

// Label i.
pub(crate) fn read_label(tree: &[u8], i: usize) -> Label
    requires { 40 * i + 40 ≤ length tree.now }
    ensures { label_in result ≡ spec.label_at tree.now i }
{
    Label::read(&tree[40 * i..40 * i + 40])
}

// Stores a label as label i.
pub(crate) fn put_label(tree: &mut [u8], i: usize, label: Label)
    requires { 40 * i + 40 ≤ length tree.old }
    ensures { tree.new ≡ spec.put_label i (label_in label) tree.old }
{
    label.write(&mut tree[40 * i..40 * i + 40]);
}

// Makes label i afresh from its two halves.
pub(crate) fn renew(tree: &mut [u8], i: usize)
    requires { 80 * i + 120 ≤ length tree.old }
    ensures { tree.new ≡ spec.renew i tree.old }
{
    let left = read_label(tree, 2 * i + 1);
    let right = read_label(tree, 2 * i + 2);
    put_label(tree, i, left.add(right));
}
