// Retrieve.
ghost use Rattle.std.specs.Prelude.{◌≡◌, ◌≤◌, length, position};
ghost use Rattle.model.specs.Plans.{cut};
ghost use Rattle.words.specs.Said.{gave, handed};
ghost use Rattle.request_rows.specs.Rows.{decode};
ghost use Rattle.request_rows.specs.Table.{Requests, view_of, live};
ghost use Rattle.request_rows.specs.Retrieve.{serves, row_at, retrieve_at};
ghost use Rattle.request_ops.specs.Retrieve.{data_in, owns, serving};

use crate::remove::remove_at;
use base::bytes::lay;
use base::sets::front;
use request_rows::{Phase, Request, SLOT, live, put_phase};
use words::said::{Condition, Said};

// Its data, of the bytes that are lent.
fn data(q: Request, area: &[u8]) -> &[u8]
    ensures value { result.now ≡ data_in area.now q }
    ensures short { length result.now ≤ 64 }
{
    let at = usize::from(q.slot) * SLOT;
    front(&area[at.min(area.len())..], usize::from(q.len).min(SLOT))
}

// "the task's own data if it has some not yet taken"
fn has_own(q: Request, area: &[u8]) -> bool
    ensures { result ≡ owns area.now q }
{
    q.phase.is_untaken() && !data(q, area).is_empty()
}

// "with the same program, the same terminal (none equals none) and some data", in the line
fn serves(q: Request, program: u32, terminal: u32, area: &[u8]) -> bool
    ensures { result ≡ serving area.now program terminal q }
{
    q.phase.is_expired()
        && q.program == program
        && q.terminal == terminal
        && !data(q, area).is_empty()
}

// The first that serves, if one does.
fn server(requests: &[u64], area: &[u8], program: u32, terminal: u32) -> Option<usize>
    ensures { result ≡ position (serves area.now program terminal) (live (view_of requests.now)) }
{
    live(requests)
        .iter()
        .position(|row| serves(Request::from(*row), program, terminal, area))
}

// The request in row i, if it is in use; and else that of four zeros, as `row_at` reads it: retrieve answers for every row number.
fn live_at(requests: &[u64], i: usize) -> Request
    ensures { result ≡ decode (row_at (view_of requests.now) i) }
{
    Request::from(live(requests).get(i).copied().unwrap_or([0; 4]))
}

// Its data, as much as there is room for: "the number being the full length".
fn give(q: Request, area: &[u8], room: usize, body: &mut [u8]) -> Said
    ensures exact { (s : Requests) → gave result s body.new ≡ handed (cut s room (data_in area.now q)) body.old }
{
    let data = data(q, area);
    let given = front(data, room);
    lay(body, given);
    Said {
        condition: Condition::of_cut(data.len(), room),
        number: data.len() as u32,
        len: given.len(),
    }
}

// "Retrieve gives the task's own data .. Otherwise the first in the line ..; that request is removed."
pub fn retrieve(requests: &mut [u64], area: &[u8], at: usize, room: usize, body: &mut [u8]) -> Said
    ensures exact { gave result (view_of requests.new) body.new ≡ handed (retrieve_at (view_of requests.old) area.now at room) body.old }
{
    let q = live_at(requests, at);
    if has_own(q, area) {
        put_phase(requests, at, Phase::Active(true));
        return give(q, area, room, body);
    }
    let Some(j) = server(requests, area, q.program, q.terminal) else {
        return Said::plain(Condition::EndOfData, 0);
    };
    let served = Request::from(live(requests)[j]);
    remove_at(requests, j);
    give(served, area, room, body)
}
