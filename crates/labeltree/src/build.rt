// Building a tree.
ghost use Rattle.std.specs.Prelude.{◌≡◌, ◌+◌, ◌-◌, ◌*◌, ◌^◌, ◌≤◌, length, take, drop};
ghost use Rattle.label.specs.Label.{label_of};
ghost use Rattle.label.specs.Code.{label_in, whole_ids};
ghost use Rattle.table.specs.Answer.{verdict_of, bytes_in};
ghost use Rattle.table.specs.Code.{answer_of, lent};
ghost use Rattle.tree.specs.Tree as spec;
ghost use Rattle.tree.specs.Private.{placed, renew_below, tree_fault};

use crate::depth::{depth_of, has_size};
use crate::stored::{put_label, renew};
use label::Label;
use table::Refusal;
use table::check::check_table;

// The label of a place: empty behind the last item.
fn label_of_place(ids: &[u8], place: usize) -> Label
    ensures { label_in result ≡ label_of (take 1 (drop place (whole_ids ids.now))) }
{
    if ids.len() / 32 <= place {
        return Label::EMPTY;
    }
    Label::of_id(&ids[place * 32..place * 32 + 32])
}

// Stores the labels of all places.
fn store_places(ids: &[u8], places: usize, tree: &mut [u8])
    requires { (1 ≤ places) × (length tree.old ≡ 40 * (places + places - 1)) }
    ensures { tree.new ≡ placed places (whole_ids ids.now) places tree.old }
{
    for place in 0..places {
        put_label(tree, places - 1 + place, label_of_place(ids, place));
    }
}

// Makes label `at` and all labels below it afresh, each from its two halves, down to the places, `level` levels below it.
#[tactic(auto, using(tree::proofs::Building::renewed_pair))]
fn sum_halves(tree: &mut [u8], level: usize, at: usize)
    requires { 40 * ((at + 2) * 2 ^ level) ≤ length tree.old + 40 }
    ensures { tree.new ≡ renew_below level at tree.old }
{
    match level {
        0 => {}
        // Both halves are places: a call for each of them would only return. These are half of all calls, and have an arm of their own so that they keep no register.
        1 => renew(tree, at),
        _ => {
            sum_halves(tree, level - 1, 2 * at + 1);
            sum_halves(tree, level - 1, 2 * at + 2);
            renew(tree, at);
        }
    }
}

// Stores all labels of the tree over the items with these ids.
fn build_whole(ids: &[u8], n: usize, tree: &mut [u8])
    requires { (length ids.now ≡ 32 * n) × (length tree.old ≡ 40 * (2 ^ (spec.depth_of n + 1) - 1)) × (n ≤ 1048576) }
    ensures { tree.new ≡ spec.tree_over (spec.depth_of n) (whole_ids ids.now) }
{
    let depth = depth_of(n);
    store_places(ids, depth.places, tree);
    sum_halves(tree, depth.levels, 0);
}

// Checks 1, 2 and 13, for a tree of `len` bytes.
fn check_build(times: &[u64], ids: &[u8], len: usize) -> Result<(), Refusal>
    ensures { answer_of result ≡ tree_fault (lent times.now ids.now) len }
{
    check_table(times, ids)?;
    let depth = depth_of(times.len());
    if !has_size(len, depth.places) {
        return Err(Refusal::WrongTree);
    }
    Ok(())
}

// Makes the lent bytes the tree over the items of a table. Refused: 1, 2 and 13.
pub fn build(times: &[u64], ids: &[u8], tree: &mut [u8]) -> Result<(), Refusal>
    ensures result_value { answer_of result ≡ verdict_of (spec.build (lent times.now ids.now) tree.old) }
    ensures tree_after { tree.new ≡ bytes_in (spec.build (lent times.now ids.now) tree.old) tree.old }
{
    check_build(times, ids, tree.len())?;
    build_whole(ids, times.len(), tree);
    Ok(())
}
