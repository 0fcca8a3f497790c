// Are the settings sound: the count is within the rows, and a task has one row. That a label is not 0 is so by how a word is read.
ghost use Rattle.std.specs.Prelude.{◌≡◌, ◌≤◌, take, map};
ghost use Rattle.base.specs.Lists.{once};
ghost use Rattle.settings.specs.Rows.{name_of};
ghost use Rattle.settings.specs.Table.{view_of, rows_in, sound_h};

use crate::names::{count, name_at};
use crate::rows::place;
use words::cells::word_at;

// Whether none of the first n names stands twice: each is looked for among those before it.
fn named_once(settings: &[u64], n: usize) -> bool
    requires { n ≤ rows_in (view_of settings.now) }
    ensures { result ≡ once (map name_of (take n (view_of settings.now).rows)) }
{
    for i in 0..n {
        if place(settings, i, name_at(settings, i)).is_some() {
            return false;
        }
    }
    true
}

pub fn sound(settings: &[u64]) -> bool
    ensures exact { result ≡ sound_h (view_of settings.now) }
{
    let n = count(settings);
    word_at(settings, 0) <= n as u64 && named_once(settings, n)
}
