// A task's settings go: it ends, or abends.
ghost use Rattle.std.specs.Prelude.{◌≡◌, true};
ghost use Rattle.handlers.specs.Table.{sound_h};
ghost use Rattle.handlers.specs.Forget.{forget_in, Forgotten};

use crate::{Tasks, rows};

// The row of that name goes, and those behind it move down; where there is none, nothing does.
pub fn forget(mut t: Tasks, name: u64) -> Tasks
    ensures exact { result ≡ forget_in t name }
    ensures model { sound_h t ≡ true → Forgotten t name result }
{
    let n = t.live().len();
    if let Some(i) = rows::place(&t, name) {
        t.rows.copy_within(i + 1..n, i);
        t.count = n - 1;
    }
    t
}
