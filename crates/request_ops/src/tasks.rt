// Who is an active task.
ghost use Rattle.std.specs.Prelude.{◌≡◌};
ghost use Rattle.request_rows.specs.Table.{view_of};
ghost use Rattle.request_rows.specs.Active.{task_in};

use request_rows::{Request, live};

// "An active task is named by the request that started it.": its row.
pub fn task_at(requests: &[u64], name: u64) -> Option<usize>
    ensures exact { result ≡ task_in (view_of requests.now) name }
{
    live(requests).iter().position(|row| {
        let q = Request::from(*row);
        q.name == name && q.phase.is_active()
    })
}
