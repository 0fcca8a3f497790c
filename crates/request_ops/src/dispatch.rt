// Dispatch.
ghost use Rattle.std.specs.Prelude.{◌≡◌, length, take};
ghost use Rattle.base.specs.Lists.{any, over};
ghost use Rattle.words.specs.Said.{gave, handed};
ghost use Rattle.request_rows.specs.Table.{view_of, live};
ghost use Rattle.request_rows.specs.Dispatch.{clash, dispatch_in};
ghost use Rattle.request_ops.specs.Dispatch.{blocks, starts, chosen, sixteen};

use base::bytes::lay;
use base::names::NONE;
use request_rows::{Phase, Request, live, put_phase};
use words::said::{Condition, Said};

// Whether it is an active task that holds the program or the terminal.
fn blocks(q: Request, program: u32, terminal: u32) -> bool
    ensures { result ≡ blocks program terminal q }
{
    q.phase.is_active() && (q.program == program || (terminal != NONE && q.terminal == terminal))
}

// Whether one of the active tasks does.
fn clashes(requests: &[u64], program: u32, terminal: u32) -> bool
    ensures { result ≡ any (clash program terminal) (live (view_of requests.now)) }
{
    live(requests)
        .iter()
        .any(|row| blocks(Request::from(*row), program, terminal))
}

// In the line, "whose terminal is none or not held by an active task, and whose program has no active task".
fn ready(requests: &[u64], q: Request) -> bool
    ensures { result ≡ starts (live (view_of requests.now)) q }
{
    q.phase.is_expired() && !clashes(requests, q.program, q.terminal)
}

// The row that starts, if one can; and how many of the line stand before it, or in the line where none can.
#[derive(Clone, Copy)]
struct Choice {
    started: Option<usize>,
    passed: usize,
}

// "Dispatch takes the first in the line" that can start.
fn choose(requests: &[u64]) -> Choice
    ensures { result ≡ chosen (live (view_of requests.now)) }
{
    let rows = live(requests);
    let started = rows
        .iter()
        .position(|row| ready(requests, Request::from(*row)));
    let before = &rows[..started.unwrap_or(rows.len())];
    let passed = before
        .iter()
        .filter(|row| Request::from(**row).phase.is_expired())
        .count();
    Choice { started, passed }
}

// "Bytes: request, program, terminal."
fn tell(q: Request, body: &mut [u8])
    ensures { body.new ≡ over (take (length body.old) (sixteen q)) body.old }
{
    let mut b = [0u8; 16];
    b[..8].copy_from_slice(&q.name.to_be_bytes());
    b[8..12].copy_from_slice(&q.program.to_be_bytes());
    b[12..].copy_from_slice(&q.terminal.to_be_bytes());
    lay(body, &b);
}

// "Number: how many in the line stood before it."
#[tactic(auto, using(words::specs::Laws::Said::said_plain, crate::specs::Laws::Dispatch::dispatch_none))]
pub fn dispatch(requests: &mut [u64], body: &mut [u8]) -> Said
    ensures exact { gave result (view_of requests.new) body.new ≡ handed (dispatch_in (view_of requests.old)) body.old }
{
    let c = choose(requests);
    // "4-byte number": there may be more rows than it can say
    let number = (c.passed % 4_294_967_296) as u32;
    let Some(at) = c.started else {
        return Said::plain(Condition::NotFound, number);
    };
    tell(Request::from(live(requests)[at]), body);
    put_phase(requests, at, Phase::Active(false));
    Said {
        condition: Condition::Normal,
        number,
        len: 16,
    }
}
