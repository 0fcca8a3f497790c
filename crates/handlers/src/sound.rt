// Are the settings sound: "handler labels are not 0", and a task has one row.
ghost use Rattle.std.specs.Prelude.{◌≡◌, map};
ghost use Rattle.base.specs.Lists.{all, any, once};
ghost use Rattle.model.specs.Handlers as model;
ghost use Rattle.handlers.specs.Table.{setting_of, live, sound_h};
ghost use Rattle.handlers.specs.Rows.{named, sound_row};
ghost use Rattle.handlers.specs.Names.{name_of};

use crate::{Setting, Task, Tasks};

// "a label 1..65535"
fn labelled(s: Setting) -> bool
    ensures { result ≡ model.sound_setting (setting_of s) }
{
    match s {
        Setting::Unset | Setting::Ignore => true,
        Setting::Label(n) => n >= 1,
    }
}

fn row_sound(v: Task) -> bool
    ensures { result ≡ sound_row v }
{
    v.cells.iter().all(|e| labelled(e.setting))
}

fn rows_sound(rows: &[Task]) -> bool
    ensures { result ≡ all sound_row rows.now }
{
    rows.iter().all(|v| row_sound(*v))
}

// Whether one of the rows has that name.
fn named(rows: &[Task], name: u64) -> bool
    ensures { result ≡ any (named name) rows.now }
{
    rows.iter().any(|v| v.name == name)
}

// Whether none of the names stands twice: each is looked for among those before it.
fn named_once(rows: &[Task]) -> bool
    ensures { result ≡ once (map name_of rows.now) }
{
    for (i, v) in rows.iter().enumerate() {
        if named(&rows[..i], v.name) {
            return false;
        }
    }
    true
}

#[tactic(auto, using(crate::proofs::RowSound::sound_parts))]
pub fn sound(t: Tasks) -> bool
    ensures exact { result ≡ sound_h t }
{
    t.count <= 16 && named_once(t.live()) && rows_sound(t.live())
}
