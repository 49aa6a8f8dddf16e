// Appending an item above all others.
ghost use Rattle.std.specs.Prelude.{◌≡◌, not, ◌+◌, ◌-◌, ◌*◌, ◌^◌, ◌≤◌, ◌<◌, length};
ghost use Rattle.table.specs.Table.{not_rising};
ghost use Rattle.table.specs.Answer.{verdict_of, bytes_in};
ghost use Rattle.table.specs.Code.{answer_of, lent};
ghost use Rattle.table.specs.Private.{Passed};
ghost use Rattle.tree.specs.Tree as spec;
ghost use Rattle.tree.specs.Tree.{item};
ghost use Rattle.tree.specs.Private.{Above, place_fault, append_fault};

use crate::depth::{depth_of, has_size};
use crate::stored::{put_label, renew};
use label::Label;
use table::Refusal;
use table::check::check_table;
use table::compare::id_below;

// Makes each of the `levels` labels above label i afresh, the lowest first.
fn renew_above(tree: &mut [u8], levels: usize, i: usize)
    requires { Above (length tree.old) levels i }
    ensures { tree.new ≡ spec.renew_above levels i tree.old }
{
    let mut at = i;
    for _ in 0..levels {
        at = (at - 1) / 2;
        renew(tree, at);
    }
}

// Stores the label of an item at place n, the first that is free, and makes the labels above it afresh.
fn store(n: usize, id: &[u8], tree: &mut [u8])
    requires { (length id.now ≡ 32) × (length tree.old ≡ 40 * (2 ^ (spec.depth_of n + 1) - 1)) × (n < 2 ^ spec.depth_of n) × (n ≤ 1048576) }
    ensures { tree.new ≡ spec.appended (spec.depth_of n) n id.now tree.old }
{
    let depth = depth_of(n);
    let at = depth.places - 1 + n;
    put_label(tree, at, Label::of_id(id));
    renew_above(tree, depth.levels, at);
}

// Whether an item is above the last of a table, and its time below 2^64 - 1.
fn is_above_last(times: &[u64], ids: &[u8], time: u64, id: &[u8]) -> bool
    requires { Passed (lent times.now ids.now) × (length id.now ≡ 32) }
    ensures { not_rising (spec.grown (lent times.now ids.now) (item time id.now)) ≡ not result }
{
    if time == u64::MAX {
        return false;
    }
    let Some(&before) = times.last() else {
        return true;
    };
    before < time || before == time && id_below(&ids[ids.len() - 32..], id)
}

// Check 13.
fn check_place(n: usize, len: usize) -> Result<(), Refusal>
    requires { n ≤ 1048576 }
    ensures { answer_of result ≡ place_fault n len }
{
    let depth = depth_of(n);
    if !has_size(len, depth.places) || depth.places <= n {
        return Err(Refusal::WrongTree);
    }
    Ok(())
}

// Checks 1, 2 and 13.
fn check_append(times: &[u64], ids: &[u8], time: u64, id: &[u8], len: usize) -> Result<(), Refusal>
    ensures { answer_of result ≡ append_fault (lent times.now ids.now) (item time id.now) len }
{
    if id.len() != 32 {
        return Err(Refusal::TableSize);
    }
    check_table(times, ids)?;
    if !is_above_last(times, ids, time, id) {
        return Err(Refusal::TableOrder);
    }
    check_place(times.len(), len)
}

// Brings the tree over the items of a table to that over them and one more, above them all. Refused: 1, 2 and 13. The table is lent as it
// was before the item; that it has it afterwards is the caller's to do.
pub fn append(
    times: &[u64],
    ids: &[u8],
    time: u64,
    id: &[u8],
    tree: &mut [u8],
) -> Result<(), Refusal>
    ensures result_value { answer_of result ≡ verdict_of (spec.append (lent times.now ids.now) (item time id.now) tree.old) }
    ensures tree_after { tree.new ≡ bytes_in (spec.append (lent times.now ids.now) (item time id.now) tree.old) tree.old }
{
    check_append(times, ids, time, id, tree.len())?;
    store(times.len(), id, tree);
    Ok(())
}
