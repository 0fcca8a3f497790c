// A task's settings go: it ends, or abends.
ghost use Rattle.std.specs.Prelude.{◌≡◌, true};
ghost use Rattle.settings.specs.Table.{view_of, sound_h};
ghost use Rattle.settings.specs.Forget.{forget_in, Forgotten};

use crate::ROW;
use crate::names::count;
use crate::rows::place;
use words::rows::shut;

// The row of that name goes, and those behind it move down; where there is none, nothing does.
pub fn forget(settings: &mut [u64], task: u64)
    ensures exact { view_of settings.new ≡ forget_in (view_of settings.old) task }
    ensures model { sound_h (view_of settings.old) ≡ true → Forgotten (view_of settings.old) task (view_of settings.new) }
{
    let n = count(settings);
    if let Some(i) = place(settings, n, task) {
        let end = n * ROW + 1;
        shut(&mut settings[1..end], i * ROW, ROW);
        settings[0] = (n - 1) as u64;
    }
}
