// Retrieve.
ghost use Rattle.std.specs.Prelude.{◌≡◌, ◌≤◌, position, IfSome};
ghost use Rattle.model.specs.Interval as model;
ghost use Rattle.interval.specs.Table.{live};
ghost use Rattle.interval.specs.Stands.{Does};
ghost use Rattle.interval.specs.Retrieve.{has_own, serves, given, retrieved, retrieve_in, retrieve_gives, retrieve_number, retrieve_bytes};

use crate::answers::{Data, Retrieved};
use crate::{Phase, Request, Requests, fresh};

// "the task's own data if it has some not yet taken"
fn has_own(q: &Request) -> bool
    ensures { result ≡ has_own q.now }
{
    q.phase.is_untaken() && q.size() >= 1
}

// "with the same program, the same terminal (none equals none) and some data", in the line
fn serves(q: &Request, program: u32, terminal: u32) -> bool
    ensures { result ≡ serves program terminal q.now }
{
    q.phase.is_expired() && q.program == program && q.terminal == terminal && q.size() >= 1
}

// A request's data, as far as there is room.
fn given(q: &Request, room: usize) -> Data
    ensures exact { result ≡ given q.now room }
    ensures small { (result.full ≤ 64) × (result.len ≤ 64) }
{
    let full = q.size();
    let bytes = q.bytes;
    Data {
        full,
        len: full.min(room),
        bytes,
    }
}

impl Requests {
    fn server(&self, program: u32, terminal: u32) -> Option<usize>
        ensures { result ≡ position (serves program terminal) (live self.now) }
    {
        self.live()
            .iter()
            .position(|q| serves(q, program, terminal))
    }

    fn retrieve(&mut self, task: u64, room: usize) -> Option<Data>
        ensures exact { retrieved self.new result ≡ retrieve_in self.old task room }
        ensures small { IfSome result (λ d. (d.full ≤ 64) × (d.len ≤ 64)) }
    {
        // A missing task is a row of zeros, as `task_of` reads it: retrieve answers for every name.
        let mut q = fresh::no_row();
        if let Some(i) = self.place(task) {
            q = self.rows[i];
            if has_own(&q) {
                self.rows[i] = q.in_phase(Phase::Active(true));
                return Some(given(&q, room));
            }
        }
        let j = self.server(q.program, q.terminal)?;
        q = self.rows[j];
        self.close(j);
        Some(given(&q, room))
    }
}

// "Retrieve gives the task's own data if it has some not yet taken. Otherwise the first in the line .. ; that request is removed."
pub fn retrieve(mut t: Requests, task: u64, room: usize) -> Retrieved
    ensures exact { result ≡ retrieve_in t task room }
    ensures model { Does t result.requests (λ i. model.retrieve i task room) (retrieve_gives result.outcome) (retrieve_number result.outcome) (retrieve_bytes result.outcome) }
    ensures small { IfSome result.outcome (λ d. (d.full ≤ 64) × (d.len ≤ 64)) }
{
    let outcome = t.retrieve(task, room);
    Retrieved {
        requests: t,
        outcome,
    }
}
