// Items that a table and a batch both have.
ghost use Rattle.std.specs.Prelude.{◌≡◌};
ghost use Rattle.table.specs.Table.{items};
ghost use Rattle.table.specs.Code.{lent};
ghost use Rattle.table.specs.Private.{Passed};
ghost use Rattle.ends.specs.Lists.{some};
ghost use Rattle.fold.specs.Fold.{same_item};

use crate::item_below;

// Whether some item of a batch is in a table: both are gone through once, from their first items. Not inlined: by itself the loop keeps what it needs in registers.
#[inline(never)]
pub fn some_common(times: &[u64], ids: &[u8], fresh: &[u64], freshids: &[u8]) -> bool
    requires { Passed (lent times.now ids.now) × Passed (lent fresh.now freshids.now) }
    ensures { result ≡ some (λ i. some (same_item i) (items (lent times.now ids.now))) (items (lent fresh.now freshids.now)) }
{
    let mut i = 0;
    let mut j = 0;
    // No `for`: of two places now one moves on, now the other.
    while i < times.len() && j < fresh.len() {
        if item_below(times, ids, i, fresh, freshids, j) {
            i += 1;
        } else if item_below(fresh, freshids, j, times, ids, i) {
            j += 1;
        } else {
            return true;
        }
    }
    false
}
