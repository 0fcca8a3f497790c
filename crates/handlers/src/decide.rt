// What decides where a condition arises for a task.
ghost use Rattle.std.specs.Prelude.{◌≡◌};
ghost use Rattle.model.specs.Handlers as model;
ghost use Rattle.handlers.specs.Table.{setting_of, tasks_of};
ghost use Rattle.handlers.specs.Rows.{setting_at};
ghost use Rattle.handlers.specs.Decide.{or_else, decide_in};

use crate::{Setting, Task, Tasks, rows};

// A task's setting for a condition; there is none above 10.
fn setting_at(v: Task, condition: u8) -> Setting
    ensures { result ≡ setting_at condition v }
{
    match v.cells.get(usize::from(condition)) {
        Some(e) => e.setting,
        None => Setting::Unset,
    }
}

impl Setting {
    // "if unset, setting 0"
    fn or_else(self, general: Setting) -> Setting
        ensures { result ≡ or_else self general }
    {
        match self {
            Setting::Unset => general,
            own => own,
        }
    }
}

// "setting c decides; if unset, setting 0"; unset is the abend.
pub fn decide(t: Tasks, name: u64, condition: u8) -> Setting
    ensures exact { result ≡ decide_in t name condition }
    ensures model { setting_of result ≡ model.decides (tasks_of t) name condition }
{
    let Some(i) = rows::place(&t, name) else {
        return Setting::Unset;
    };
    let v = t.rows[i];
    let own = setting_at(v, condition);
    let general = setting_at(v, 0);
    own.or_else(general)
}
