// The rows: how many there are places for, and where a task's stands.
ghost use Rattle.std.specs.Prelude.{◌≡◌, ◌<◌, ◌≤◌, ◌∷◌, length, take, get_or, position};
ghost use Rattle.settings.specs.Rows.{named, no_line};
ghost use Rattle.settings.specs.Table.{view_of, rows_in};

use crate::{ROW, SETTINGS};
use words::rows::find;

// How many rows there are places for: the first word is the count.
#[tactic(auto, using(crate::specs::Laws::View::view_rows))]
pub(crate) fn rows_in(settings: &[u64]) -> usize
    ensures { result ≡ rows_in (view_of settings.now) }
{
    settings.len().saturating_sub(1) / ROW
}

// The words of row i: its name, and its settings.
pub(crate) fn row(settings: &[u64], i: usize) -> &[u64]
    requires { i < rows_in (view_of settings.now) }
    ensures exact { let v = get_or (view_of settings.now).rows i no_line in result.now ≡ v.name ∷ v.cells }
    ensures long { length result.now ≡ 12 }
{
    let at = i * ROW + 1;
    &settings[at..at + ROW]
}

// The place of the task's row among the first n, if it has one there.
pub(crate) fn place(settings: &[u64], n: usize, task: u64) -> Option<usize>
    requires { n ≤ rows_in (view_of settings.now) }
    ensures { result ≡ position (named task) (take n (view_of settings.now).rows) }
{
    let rows = settings.get(1..n * ROW + 1)?;
    find(rows, SETTINGS, task)
}
