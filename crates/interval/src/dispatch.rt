// Dispatch.
ghost use Rattle.std.specs.Prelude.{◌≡◌, ◌≤◌, length, take, position, count_by};
ghost use Rattle.base.specs.Lists.{keep, first_at};
ghost use Rattle.model.specs.Interval as model;
ghost use Rattle.interval.specs.Rows.{expired, active};
ghost use Rattle.interval.specs.Stands.{Does};
ghost use Rattle.interval.specs.Dispatch.{Runs, free_of, ready, dispatch_in, dispatch_gives, dispatch_bytes};

use crate::answers::{Dispatched, Task};
use crate::{Phase, Request, Requests};
use base::names::NONE;
use base::sets::has;

// What the active tasks run and hold: the first n of each. Gathered once, so that a row of the line is compared with them and not with every
// row; in arrays as long as the rows, since there is no heap.
#[derive(Clone, Copy)]
struct Busy {
    programs: [u32; 32],
    terminals: [u32; 32],
    n: usize,
}

fn busy_in(rows: &[Request]) -> Busy
    requires { length rows.now ≤ 32 }
    ensures { Runs (keep active rows.now) result }
{
    let mut busy = Busy {
        programs: [0; 32],
        terminals: [0; 32],
        n: 0,
    };
    for q in rows {
        if q.phase.is_active() {
            busy.programs[busy.n] = q.program;
            busy.terminals[busy.n] = q.terminal;
            busy.n += 1;
        }
    }
    busy
}

impl Busy {
    // "whose terminal is none or not held by an active task, and whose program has no active task"
    fn frees(&self, q: &Request) -> bool
        ensures { result ≡ free_of (take self.now.n self.now.programs) (take self.now.n self.now.terminals) q.now.program q.now.terminal }
    {
        !has(&self.programs, self.n, &q.program)
            && (q.terminal == NONE || !has(&self.terminals, self.n, &q.terminal))
    }
}

// The first row of the line that can start, and how many of the line stand before it: all of them where none can.
#[derive(Clone, Copy)]
struct Picked {
    at: Option<usize>,
    passed: u32,
}

fn pick(rows: &[Request]) -> Picked
    requires { length rows.now ≤ 32 }
    ensures at { result.at ≡ position (ready rows.now) rows.now }
    ensures passed { result.passed ≡ count_by expired (take (first_at (ready rows.now) rows.now) rows.now) }
{
    let busy = busy_in(rows);
    let mut passed: u32 = 0;
    for (i, q) in rows.iter().enumerate() {
        if q.phase.is_expired() {
            if busy.frees(q) {
                return Picked {
                    at: Some(i),
                    passed,
                };
            }
            passed += 1;
        }
    }
    Picked { at: None, passed }
}

// "Dispatch takes the first in the line" that can start.
pub fn dispatch(mut t: Requests) -> Dispatched
    ensures exact { result ≡ dispatch_in t }
    ensures model { Does t result.requests model.dispatch (dispatch_gives result.started) result.passed (dispatch_bytes result.started) }
{
    let rows = t.live();
    let Picked { at, passed } = pick(rows);
    let Some(i) = at else {
        return Dispatched {
            requests: t,
            passed,
            started: None,
        };
    };
    let q = rows[i];
    t.rows[i] = q.in_phase(Phase::Active(false));
    Dispatched {
        requests: t,
        passed,
        started: Some(Task {
            name: q.name,
            program: q.program,
            terminal: q.terminal,
        }),
    }
}
