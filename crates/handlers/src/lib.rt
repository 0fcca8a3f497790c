// Condition handling: the settings of the tasks. It knows a task by its name alone.
#![tactic(auto)]

ghost use Rattle.std.specs.Prelude.{◌≡◌, map};
ghost use Rattle.model.specs.Handlers as model;
ghost use Rattle.handlers.specs.Names.{name_of};
ghost use Rattle.handlers.specs.Table.{live, tasks_of};

use base::sets::front;

// "unset, ignore, or a label 1..65535". It is settings' enum once more, until this crate goes and the tables in place take over.
#[derive(Clone, Copy, PartialEq, Eq)]
pub enum Setting {
    Unset,
    Ignore,
    Label(u16),
}

// A setting in a row of them.
#[derive(Clone, Copy)]
pub struct Cell {
    pub setting: Setting,
}

// "Each task has a setting for conditions 0..10".
#[derive(Clone, Copy)]
pub struct Task {
    pub name: u64,
    pub cells: [Cell; 11],
}

// Rows 0..count are the tasks that have settings, in the order of their first; a task that has no row has all unset. Places past the count
// keep what they held and mean nothing. There are as many rows as tasks can be active at once: no heap, so a count stands beside the rows.
#[derive(Clone, Copy)]
pub struct Tasks {
    pub count: usize,
    pub rows: [Task; 16],
}

impl Tasks {
    // The rows of the tasks that have settings, and so the names of these tasks in order.
    #[tactic(auto, using(crate::specs::Laws::Standing::names_stand))]
    pub fn live(&self) -> &[Task]
        ensures exact { result.now ≡ live self.now }
        ensures model { map name_of result.now ≡ map (λ (m : model.Task). m.name) (tasks_of self.now) }
    {
        front(&self.rows, self.count)
    }
}

pub mod answers;
pub mod decide;
pub mod forget;
pub mod fresh;
pub mod names;
mod rows;
pub mod set;
pub mod sound;
