// What decides where a condition arises for a task.
ghost use Rattle.std.specs.Prelude.{◌≡◌, ◌<◌, get_or};
ghost use Rattle.model.specs.Handlers as model;
ghost use Rattle.settings.specs.Rows.{setting_at, no_line};
ghost use Rattle.settings.specs.Table.{view_of, rows_in, setting_of, tasks_of};
ghost use Rattle.settings.specs.Decide.{or_else, decide_in};

use crate::names::count;
use crate::rows::{place, row};
use crate::{LAST, Setting};

// The setting for a condition in row i; there is none above 10.
fn setting_at(settings: &[u64], i: usize, condition: u8) -> Setting
    requires { i < rows_in (view_of settings.now) }
    ensures { result ≡ setting_at condition (get_or (view_of settings.now).rows i no_line) }
{
    if condition > LAST {
        return Setting::Unset;
    }
    Setting::from(row(settings, i)[1 + usize::from(condition)])
}

impl Setting {
    // "if unset, setting 0"
    fn or_else(self, general: Setting) -> Setting
        ensures { result ≡ or_else self general }
    {
        match self {
            Setting::Unset => general,
            own => own,
        }
    }
}

// "setting c decides; if unset, setting 0"; unset is the abend.
pub fn decide(settings: &[u64], task: u64, condition: u8) -> Setting
    ensures exact { result ≡ decide_in (view_of settings.now) task condition }
    ensures model { setting_of result ≡ model.decides (tasks_of (view_of settings.now)) task condition }
{
    let n = count(settings);
    let Some(i) = place(settings, n, task) else {
        return Setting::Unset;
    };
    let own = setting_at(settings, i, condition);
    let general = setting_at(settings, i, 0);
    own.or_else(general)
}
