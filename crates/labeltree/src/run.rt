// The label of a run of places.
ghost use Rattle.std.specs.Prelude.{◌≡◌, ◌+◌, ◌*◌, ◌≤◌, length};
ghost use Rattle.tree.specs.Tree as spec;
ghost use Rattle.labeltree.specs.Code.{found_in};
ghost use Rattle.tree.specs.Private.{Reaches};
ghost use Rattle.table.specs.Code.{answer_by};

use crate::depth::{depth_of, has_size};
use crate::stored::read_label;
use label::Label;
use table::Refusal;

// The label of some places, and how many labels were visited for it.
#[derive(Clone, Copy)]
pub struct Found {
    pub label: Label,
    pub visited: u64,
}

// Whether no place of the `size` places from `first` on is in the run.
fn is_outside(from: usize, to: usize, first: usize, size: usize) -> bool
    requires { first + size ≤ 18446744073709551615 }
    ensures { result ≡ spec.outside from to first size }
{
    to <= from || to <= first || first + size <= from
}

// Whether each of them is.
fn is_inside(from: usize, to: usize, first: usize, size: usize) -> bool
    requires { first + size ≤ 18446744073709551615 }
    ensures { result ≡ spec.inside from to first size }
{
    from <= first && first + size <= to
}

// The whole and its two halves, which were visited.
fn both(left: Found, right: Found) -> Found
    requires { left.visited + right.visited + 1 ≤ 18446744073709551615 }
    ensures { found_in result ≡ spec.both (found_in left) (found_in right) }
{
    Found {
        label: left.label.add(right.label),
        visited: 1 + left.visited + right.visited,
    }
}

// Visits label `at`, that of the `size` places from `first` on, 2 to the power `level`.
fn visit_half(
    tree: &[u8],
    from: usize,
    to: usize,
    level: usize,
    size: usize,
    at: usize,
    first: usize,
) -> Found
    requires { Reaches (length tree.now) level size at first }
    ensures { found_in result ≡ spec.visit tree.now from to level at first }
{
    if is_outside(from, to, first, size) {
        return Found {
            label: Label::EMPTY,
            visited: 1,
        };
    }
    if level == 0 || is_inside(from, to, first, size) {
        return Found {
            label: read_label(tree, at),
            visited: 1,
        };
    }
    let half = size / 2;
    let left = visit_half(tree, from, to, level - 1, half, 2 * at + 1, first);
    let right = visit_half(tree, from, to, level - 1, half, 2 * at + 2, first + half);
    both(left, right)
}

// The label of the places from `from` to below `to`, cut to those that the tree has. Refused: 13.
pub fn label_of_run(tree: &[u8], from: usize, to: usize) -> Result<Found, Refusal>
    ensures { answer_by found_in result ≡ spec.label_of_run tree.now from to }
{
    let depth = depth_of(tree.len() / 80 + 1);
    if !has_size(tree.len(), depth.places) {
        return Err(Refusal::WrongTree);
    }
    let end = to.min(depth.places);
    Ok(visit_half(tree, from, end, depth.levels, depth.places, 0, 0))
}
