// What a batch of items does to a table: the items that both have, and the merge. For our own crates.
#![tactic(auto)]

ghost use Rattle.std.specs.Prelude.{◌+◌, ◌*◌, ◌≤◌, ◌<◌, ◌≡◌, ltb, length};
ghost use Rattle.table.specs.Table.{key_of};
ghost use Rattle.table.specs.Code.{lent};
ghost use Rattle.table.specs.Private.{item_at};

use table::compare::id_below;

pub mod common;
pub mod merge;

// Whether item i of one table is below item j of another.
pub(crate) fn item_below(t: &[u64], p: &[u8], i: usize, u: &[u64], q: &[u8], j: usize) -> bool
    requires { (i < length t.now) × (i * 32 + 32 ≤ length p.now) × (j < length u.now) × (j * 32 + 32 ≤ length q.now) }
    ensures { result ≡ ltb (key_of (item_at (lent t.now p.now) i)) (key_of (item_at (lent u.now q.now) j)) }
{
    t[i] < u[j] || t[i] == u[j] && id_below(&p[i * 32..], &q[j * 32..])
}
