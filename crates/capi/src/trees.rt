// The calls on trees of labels: those of `labeltree`.
ghost use Rattle.std.specs.Prelude.{◌≡◌};
ghost use Rattle.table.specs.Answer.{bytes_in};
ghost use Rattle.table.specs.Code.{answer_of, lent};
ghost use Rattle.tree.specs.Tree as spec;
ghost use Rattle.tree.specs.Tree.{item};
ghost use Rattle.capi.specs.Calls.{number_in};
ghost use Rattle.capi.specs.Trees.{found_in};

use crate::Label;
use labeltree::append::append;
use labeltree::build::build;
use labeltree::run::label_of_run;
use table::Refusal;

// The number of the refusal, 0 for none, the label of the run, and how many labels were visited.
#[repr(C)]
#[derive(Clone, Copy)]
pub struct TreeAnswer {
    pub refusal: u64,
    pub label: Label,
    pub visited: u64,
}

// The number of the refusal, 0 for none.
fn number(answer: Result<(), Refusal>) -> u64
    ensures { result ≡ number_in (answer_of answer) }
{
    match answer {
        Ok(()) => 0,
        Err(refusal) => refusal.number(),
    }
}

// Makes the lent bytes the tree over a table.
#[unsafe(no_mangle)]
pub extern "C" fn recon_tree_build(times: &[u64], ids: &[u8], tree: &mut [u8]) -> u64
    ensures value { result ≡ number_in (spec.build (lent times.now ids.now) tree.old) }
    ensures tree_after { tree.new ≡ bytes_in (spec.build (lent times.now ids.now) tree.old) tree.old }
{
    number(build(times, ids, tree))
}

// Brings the tree to that of the table with one more item.
#[unsafe(no_mangle)]
pub extern "C" fn recon_tree_append(
    times: &[u64],
    ids: &[u8],
    time: u64,
    id: &[u8],
    tree: &mut [u8],
) -> u64
    ensures value { result ≡ number_in (spec.append (lent times.now ids.now) (item time id.now) tree.old) }
    ensures tree_after { tree.new ≡ bytes_in (spec.append (lent times.now ids.now) (item time id.now) tree.old) tree.old }
{
    number(append(times, ids, time, id, tree))
}

// The label of the places from `from` to below `to`.
#[unsafe(no_mangle)]
pub extern "C" fn recon_tree_label(tree: &[u8], from: usize, to: usize) -> TreeAnswer
    ensures refusal_value { result.refusal ≡ number_in (spec.label_of_run tree.now from to) }
    ensures result_value { found_in result ≡ spec.or_nothing (spec.label_of_run tree.now from to) }
{
    match label_of_run(tree, from, to) {
        Ok(found) => {
            let sum = found.label.sum;
            TreeAnswer {
                refusal: 0,
                label: Label {
                    sum,
                    count: found.label.count,
                },
                visited: found.visited,
            }
        }
        Err(refusal) => TreeAnswer {
            refusal: refusal.number(),
            label: Label {
                sum: [0; 4],
                count: 0,
            },
            visited: 0,
        },
    }
}
