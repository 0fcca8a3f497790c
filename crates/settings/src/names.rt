// The tasks that have settings: how many, and the name of each.
ghost use Rattle.std.specs.Prelude.{◌≡◌, ◌<◌, map, length, get_or};
ghost use Rattle.model.specs.Handlers as model;
ghost use Rattle.settings.specs.Table.{view_of, live, tasks_of};
ghost use Rattle.settings.specs.Names.{name_at};

use crate::rows::{row, rows_in};
use words::cells::word_at;

pub fn count(settings: &[u64]) -> usize
    ensures exact { result ≡ length (live (view_of settings.now)) }
    ensures model { result ≡ length (tasks_of (view_of settings.now)) }
{
    rows_in(settings).min(word_at(settings, 0) as usize)
}

// The name in row i, and 0 past the rows: any words get a reply, and the clause is for every row.
pub fn name_at(settings: &[u64], i: usize) -> u64
    ensures exact { result ≡ name_at (view_of settings.now) i }
    ensures model { i < length (tasks_of (view_of settings.now)) → result ≡ get_or (map (λ (m : model.Task). m.name) (tasks_of (view_of settings.now))) i 0 }
{
    if i < rows_in(settings) {
        return row(settings, i)[0];
    }
    0
}
