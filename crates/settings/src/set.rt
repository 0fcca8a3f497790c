// Handle, ignore, reset: a setting of a task is made.
ghost use Rattle.std.specs.Prelude.{◌≡◌, List, [], ◌∷◌, ℕ, ◌≤◌, ltb, length, set, replicate};
ghost use Rattle.words.specs.Said.{gave, handed, told};
ghost use Rattle.model.specs.Handlers as model;
ghost use Rattle.settings.specs.Rows.{with_word, unset_line};
ghost use Rattle.settings.specs.Table.{view_of, live, tasks_of};
ghost use Rattle.settings.specs.Set.{add_in, set_in, set_to, handle_in, ignore_in, reset_in, Obeys};

use crate::names::count;
use crate::rows::{place, rows_in};
use crate::{LAST, ROW, Setting};
use words::cells::clear;
use words::said::{Condition, Said};

// A row for a task that had none: "All are unset at dispatch", and one setting is made.
fn new_row(row: &mut [u64], task: u64, c: usize, w: u64)
    requires row_len { length row.old ≡ 12 }
    requires c_bound { c ≤ 10 }
    ensures { row.new ≡ task ∷ set (replicate 11 0) c w }
{
    clear(row);
    row[0] = task;
    row[c + 1] = w;
}

// A row behind the others. Where there is no place left nothing changes: this does not arise where there are as many places as programs, since a row
// is an active task's and each active task has a program of its own.
fn add(settings: &mut [u64], n: usize, task: u64, c: usize, w: u64)
    requires n_value { n ≡ length (live (view_of settings.old)) }
    requires c_bound { c ≤ 10 }
    ensures { view_of settings.new ≡ add_in (view_of settings.old) (with_word c w (unset_line task)) }
{
    if n < rows_in(settings) {
        let at = n * ROW + 1;
        let end = at + ROW;
        new_row(&mut settings[at..end], task, c, w);
        settings[0] = (n + 1) as u64;
    }
}

// In the task's row, or in a new one behind the others.
fn put(settings: &mut [u64], task: u64, condition: u8, setting: Setting)
    requires { condition ≤ 10 }
    ensures { view_of settings.new ≡ set_in (view_of settings.old) task condition setting }
{
    let n = count(settings);
    let c = usize::from(condition);
    let w = u64::from(setting);
    if let Some(i) = place(settings, n, task) {
        settings[i * ROW + 2 + c] = w;
    } else {
        add(settings, n, task, c, w);
    }
}

// All three: "10 condition above 10".
fn set_to(settings: &mut [u64], task: u64, condition: u8, setting: Setting) -> Said
    ensures { (b : List ℕ) → gave result (view_of settings.new) b ≡ handed (set_to (ltb 10 condition) (view_of settings.old) task condition setting) b }
{
    if condition > LAST {
        return Said::plain(Condition::InvalidRequest, 0);
    }
    put(settings, task, condition, setting);
    Said::plain(Condition::Normal, 0)
}

// "10 condition above 10 or label 0"
pub fn handle(settings: &mut [u64], task: u64, condition: u8, label: u16) -> Said
    ensures exact { (b : List ℕ) → gave result (view_of settings.new) b ≡ handed (handle_in (view_of settings.old) task condition label) b }
    ensures model { Obeys (view_of settings.old) task (told result [] (view_of settings.new)) (model.handle (tasks_of (view_of settings.old)) task condition label) }
{
    if label == 0 {
        return Said::plain(Condition::InvalidRequest, 0);
    }
    set_to(settings, task, condition, Setting::Label(label))
}

// "10 condition above 10"
pub fn ignore(settings: &mut [u64], task: u64, condition: u8) -> Said
    ensures exact { (b : List ℕ) → gave result (view_of settings.new) b ≡ handed (ignore_in (view_of settings.old) task condition) b }
    ensures model { Obeys (view_of settings.old) task (told result [] (view_of settings.new)) (model.ignore (tasks_of (view_of settings.old)) task condition) }
{
    set_to(settings, task, condition, Setting::Ignore)
}

// "10 condition above 10"
pub fn reset(settings: &mut [u64], task: u64, condition: u8) -> Said
    ensures exact { (b : List ℕ) → gave result (view_of settings.new) b ≡ handed (reset_in (view_of settings.old) task condition) b }
    ensures model { Obeys (view_of settings.old) task (told result [] (view_of settings.new)) (model.reset (tasks_of (view_of settings.old)) task condition) }
{
    set_to(settings, task, condition, Setting::Unset)
}
