// Who is an active task.
ghost use Rattle.std.specs.Prelude.{◌≡◌, ℕ};
ghost use Rattle.std.specs.List.{list_any};
ghost use Rattle.model.specs.Interval as model;
ghost use Rattle.interval.specs.Table.{live};
ghost use Rattle.interval.specs.Stands.{interval_at};
ghost use Rattle.interval.specs.Active.{task, active_in};

use crate::{Request, Requests};

// Whether a request is the active task of that name.
pub fn is_task(q: Request, name: u64) -> bool
    ensures exact { result ≡ task name q }
{
    q.phase.is_active() && q.name == name
}

impl Requests {
    // Whether one of them is: of lent requests, so that none is copied.
    pub fn has_task(&self, name: u64) -> bool
        ensures exact { result ≡ list_any (task name) (live self.now) }
    {
        self.live().iter().any(|q| is_task(*q, name))
    }
}

// "An active task is named by the request that started it."
pub fn is_active(t: Requests, name: u64) -> bool
    ensures exact { result ≡ active_in t name }
    ensures model { (c : ℕ) → result ≡ model.active_task (interval_at c t) name }
{
    t.has_task(name)
}
