// The rows: one with nothing set, and where a name stands.
ghost use Rattle.std.specs.Prelude.{◌≡◌, position};
ghost use Rattle.handlers.specs.Table.{live};
ghost use Rattle.handlers.specs.Rows.{unset_row, named};

use crate::{Cell, Setting, Task, Tasks};

// "All are unset at dispatch."
pub(crate) fn unset_row(name: u64) -> Task
    ensures { result ≡ unset_row name }
{
    let c = Cell {
        setting: Setting::Unset,
    };
    Task {
        name,
        cells: [c; 11],
    }
}

// The place of the first row of that name, if one has it.
pub(crate) fn place(t: &Tasks, name: u64) -> Option<usize>
    ensures { result ≡ position (named name) (live t.now) }
{
    t.live().iter().position(|v| v.name == name)
}
