// Are the tables sound: the rules of the parts, and "only an active task has settings".
ghost use Rattle.std.specs.Prelude.{◌≡◌};
ghost use Rattle.base.specs.Lists.{all};
ghost use Rattle.interval.specs.Active.{active_in};
ghost use Rattle.monitor.specs.Table.{settled, sound_p};

use crate::Parts;
use handlers::Tasks;
use interval::Requests;
use interval::active::is_active;

// Whether each task that has settings is active.
fn all_active(q: Requests, t: Tasks) -> bool
    ensures { result ≡ all (active_in q) (settled t) }
{
    t.live().iter().all(|task| is_active(q, task.name))
}

#[tactic(auto, unfolding(crate::specs::Table::sound_p))]
pub fn sound(p: Parts) -> bool
    ensures exact { result ≡ sound_p p }
{
    interval::sound::sound(p.requests)
        && queues::sound::sound(p.queues)
        && handlers::sound::sound(p.tasks)
        && all_active(p.requests, p.tasks)
}
