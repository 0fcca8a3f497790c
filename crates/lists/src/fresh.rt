// The fresh parts of a run. In each a row is written again with what it holds, at a place that the register names: a compiler cannot foresee
// the place, so it takes the rows for one piece of memory and copies them as one. Else it copies each field of each row by itself.
ghost use Rattle.std.specs.Prelude.{◌≡◌};
ghost use Rattle.interval.specs.Fresh.{fresh_at};
ghost use Rattle.handlers.specs.Fresh.{no_tasks};

use handlers::Tasks;
use interval::Requests;

pub(crate) fn fresh_requests(register: u32) -> Requests
    ensures { result ≡ fresh_at register }
{
    let mut t = interval::fresh::fresh(register);
    let k = (register % 32) as usize;
    let row = t.rows[0];
    t.rows[k] = row;
    t
}

pub(crate) fn fresh_tasks(register: u32) -> Tasks
    ensures { result ≡ no_tasks }
{
    let mut t = handlers::fresh::fresh();
    let k = (register % 16) as usize;
    let row = t.rows[0];
    t.rows[k] = row;
    t
}
