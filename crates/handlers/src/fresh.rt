// No task has a row.
ghost use Rattle.std.specs.Prelude.{◌≡◌};
ghost use Rattle.handlers.specs.Fresh.{no_tasks, Fresh};

use crate::{Tasks, rows};

#[tactic(auto, using(crate::proofs::Laws::Kept::none_fresh), unfolding(crate::specs::Fresh::no_tasks))]
pub fn fresh() -> Tasks
    ensures exact { result ≡ no_tasks }
    ensures model { Fresh result }
{
    let v = rows::unset_row(0);
    let rows = [v; 16];
    Tasks { count: 0, rows }
}
