// A request goes.
ghost use Rattle.std.specs.Prelude.{◌≡◌, position};
ghost use Rattle.request_rows.specs.Rows.{named};
ghost use Rattle.request_rows.specs.Table.{view_of, live};
ghost use Rattle.request_rows.specs.Remove.{remove_at, remove_in};

use request_rows::{COUNT, HEAD, Request, WIDTH, count, live};
use words::rows::shut;

// The row of the first request of that name, if one has it.
pub(crate) fn place(requests: &[u64], name: u64) -> Option<usize>
    ensures { result ≡ position (named name) (live (view_of requests.now)) }
{
    live(requests)
        .iter()
        .position(|row| Request::from(*row).name == name)
}

// The request in row i, if there is one; those behind it move down.
#[tactic(auto, using(request_rows::specs::Laws::View::rows_in_lem, request_rows::specs::Laws::View::live_count, crate::specs::Laws::Remove::removed, crate::specs::Laws::Remove::unremoved))]
pub fn remove_at(requests: &mut [u64], i: usize)
    ensures exact { view_of requests.new ≡ remove_at (view_of requests.old) i }
{
    let m = count(requests);
    if i < m {
        shut(&mut requests[HEAD..HEAD + m * WIDTH], i * WIDTH, WIDTH);
        requests[COUNT] = (m - 1) as u64;
    }
}

// The first request of that name, if there is one.
#[tactic(auto, using(base::specs::Laws::Library::position_some, base::specs::Laws::Library::position_none, crate::specs::Laws::Remove::unremoved), unfolding(request_rows::specs::Remove::remove_in))]
pub fn remove(requests: &mut [u64], name: u64)
    ensures exact { view_of requests.new ≡ remove_in (view_of requests.old) name }
{
    if let Some(i) = place(requests, name) {
        remove_at(requests, i);
    }
}
