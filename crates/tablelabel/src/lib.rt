// The label of a whole table, summed in the pass that checks it, so that the ids are read once.
#![tactic(auto)]

ghost use Rattle.std.specs.Prelude.{◌≡◌};
ghost use Rattle.label.specs.Code.{label_in};
ghost use Rattle.table.specs.Answer.{answer};
ghost use Rattle.table.specs.Table.{judge_table};
ghost use Rattle.table.specs.Code.{answer_by, lent};
ghost use Rattle.ends.specs.Opener.{table_label};

use label::Label;
use table::Refusal;
use table::check::{check_start, next_rises};

// Checks 1 and 2, and the label of all items.
pub fn check_and_label(times: &[u64], ids: &[u8]) -> Result<Label, Refusal>
    ensures { answer_by label_in result ≡ judge_table (lent times.now ids.now) (answer (table_label (lent times.now ids.now))) }
{
    check_start(times, ids)?;
    let mut label = Label::of_id(ids);
    for i in 1..times.len() {
        if !next_rises(times, ids, i - 1) {
            return Err(Refusal::TableOrder);
        }
        label = label.add(Label::of_id(&ids[i * 32..]));
    }
    Ok(label)
}
