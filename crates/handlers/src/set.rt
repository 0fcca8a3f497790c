// Handle, ignore, reset: a setting of a task is made.
ghost use Rattle.std.specs.Prelude.{◌≡◌, ◌≤◌, true, ltb};
ghost use Rattle.model.specs.Handlers as model;
ghost use Rattle.handlers.specs.Table.{tasks_of, sound_h};
ghost use Rattle.handlers.specs.Set.{set_in, set_to, handle_in, ignore_in, reset_in, room, Done};

use crate::answers::{Handled, Invalid};
use crate::{Cell, Setting, Tasks, rows};

// The last condition that has a setting.
const LAST: u8 = 10;

// In the task's row, or in a new one behind the others. Where it has none and 16 are in use nothing changes: this does not arise, since a row is an
// active task's and at most 16 tasks are active, as each has a program of its own.
fn put(mut t: Tasks, name: u64, condition: u8, setting: Setting) -> Tasks
    requires { condition ≤ 10 }
    ensures { result ≡ set_in t name condition setting }
{
    let n = t.live().len();
    let c = usize::from(condition);
    let cell = Cell { setting };
    if let Some(i) = rows::place(&t, name) {
        t.rows[i].cells[c] = cell;
    } else if n < 16 {
        let mut v = rows::unset_row(name);
        v.cells[c] = cell;
        t.rows[n] = v;
        t.count = n + 1;
    }
    t
}

// All three: "10 condition above 10".
fn set_to(t: Tasks, name: u64, condition: u8, setting: Setting) -> Handled
    ensures { result ≡ set_to (ltb 10 condition) t name condition setting }
{
    if condition > LAST {
        return Handled {
            tasks: t,
            outcome: Err(Invalid),
        };
    }
    Handled {
        tasks: put(t, name, condition, setting),
        outcome: Ok(()),
    }
}

// "10 condition above 10 or label 0"
pub fn handle(t: Tasks, name: u64, condition: u8, label: u16) -> Handled
    ensures exact { result ≡ handle_in t name condition label }
    ensures model { sound_h t ≡ true → room t name ≡ true → Done t result (model.handle (tasks_of t) name condition label) }
{
    if label == 0 {
        return Handled {
            tasks: t,
            outcome: Err(Invalid),
        };
    }
    set_to(t, name, condition, Setting::Label(label))
}

// "10 condition above 10"
pub fn ignore(t: Tasks, name: u64, condition: u8) -> Handled
    ensures exact { result ≡ ignore_in t name condition }
    ensures model { sound_h t ≡ true → room t name ≡ true → Done t result (model.ignore (tasks_of t) name condition) }
{
    set_to(t, name, condition, Setting::Ignore)
}

// "10 condition above 10"
pub fn reset(t: Tasks, name: u64, condition: u8) -> Handled
    ensures exact { result ≡ reset_in t name condition }
    ensures model { sound_h t ≡ true → room t name ≡ true → Done t result (model.reset (tasks_of t) name condition) }
{
    set_to(t, name, condition, Setting::Unset)
}
