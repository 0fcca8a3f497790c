// Start.
ghost use Rattle.std.specs.Prelude.{◌≡◌, ◌≤◌, [], length, take};
ghost use Rattle.base.specs.Lists.{any};
ghost use Rattle.model.specs.Limits.{cabinet};
ghost use Rattle.model.specs.Interval as model;
ghost use Rattle.interval.specs.Table.{live};
ghost use Rattle.interval.specs.Rows.{named};
ghost use Rattle.interval.specs.Stands.{Does};
ghost use Rattle.interval.specs.Start.{asks, begun_at, new_row, ruled, start_in, start_gives};

use crate::answers::{StartError, Started};
use crate::{Phase, Request, Requests};
use base::bytes::lay;
use base::names::{BLANK, NONE};
use base::sets::has;

// What a start asks for, besides the data.
#[derive(Clone, Copy)]
pub struct Asked {
    pub name: u64,
    pub program: u32,
    pub terminal: u32,
    pub interval: u32,
}

// "Due is clock plus interval. .. interval 0 expires at once."
#[tactic(auto, unfolding(crate::specs::Start::begun_at, crate::specs::Circle::after))]
fn begun(register: u32, interval: u32) -> Phase
    ensures { result ≡ begun_at register interval }
{
    if interval == 0 {
        return Phase::Expired;
    }
    Phase::Waiting(register.wrapping_add(interval))
}

// "a blank terminal means none"
fn none_or_known(names: &[u32], count: usize, name: u32) -> bool
    ensures { result ≡ model.none_or_known name (take count names.now) }
{
    name == NONE || has(names, count, &name)
}

impl Requests {
    fn in_use(&self, name: u64) -> bool
        ensures { result ≡ any (named name) (live self.now) }
    {
        self.place(name).is_some()
    }

    // What a start comes to: the tests in their order.
    #[tactic(auto, unfolding(crate::specs::Start::ruling))]
    fn rule(&self, a: Asked, bytes: &[u8]) -> Result<(), StartError>
        ensures { result ≡ ruled self.now (asks a bytes.now) }
    {
        if a.name == BLANK || a.interval > 359_999_000 {
            return Err(StartError::Invalid);
        }
        if bytes.len() > 64 {
            return Err(StartError::WrongLength);
        }
        if !has(&self.programs, self.pcount, &a.program) {
            return Err(StartError::UnknownProgram);
        }
        if !none_or_known(&self.terminals, self.tcount, a.terminal) {
            return Err(StartError::UnknownTerminal);
        }
        if self.in_use(a.name) {
            return Err(StartError::NotUnique);
        }
        if self.live().len() >= 32 {
            return Err(StartError::NoSpace);
        }
        Ok(())
    }
}

// The request that is asked for: its data, and zeros behind them.
fn new_row(register: u32, a: Asked, bytes: &[u8]) -> Request
    requires { length bytes.now ≤ 64 }
    ensures { result ≡ new_row register (asks a bytes.now) }
{
    let mut data = [0u8; 64];
    lay(&mut data, bytes);
    Request {
        name: a.name,
        program: a.program,
        terminal: a.terminal,
        phase: begun(register, a.interval),
        len: bytes.len() as u8,
        bytes: data,
    }
}

pub fn start(mut t: Requests, a: Asked, bytes: &[u8]) -> Started
    ensures exact { result ≡ start_in t (asks a bytes.now) }
    ensures model { Does t result.requests (λ i. model.start cabinet i (asks a bytes.now)) (start_gives result.outcome) 0 [] }
{
    let n = t.live().len();
    let outcome = t.rule(a, bytes);
    if outcome.is_ok() {
        t.rows[n] = new_row(t.register, a, bytes);
        t.count = n + 1;
    }
    Started {
        requests: t,
        outcome,
    }
}
