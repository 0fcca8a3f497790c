// Commands 1 to 8: the record is read, and interval control is asked.
ghost use Rattle.std.specs.Prelude.{◌≡◌, [], ◌++◌, ◌≤◌, IfSome};
ghost use Rattle.base.specs.Bytes.{bytes_of};
ghost use Rattle.model.specs.Commands.{issuer, operand, asked};
ghost use Rattle.interval.specs.Advance.{condition_of, number_of};
ghost use Rattle.interval.specs.Cancel.{cancel_gives};
ghost use Rattle.interval.specs.Define.{define_gives};
ghost use Rattle.interval.specs.Dispatch.{dispatch_gives, dispatch_bytes};
ghost use Rattle.interval.specs.Retrieve.{retrieve_gives, retrieve_number, retrieve_bytes};
ghost use Rattle.interval.specs.Start.{start_gives};
ghost use Rattle.interval.specs.Runs as runs;
ghost use Rattle.monitor.specs.Answers.{saying};
ghost use Rattle.monitor.specs.Requests.{asks, ask_of};

use crate::answers::{Said, carrying, plain};
use interval::Requests;
use interval::advance::Invalid;
use interval::answers::{CancelError, Data, DefineError, StartError, Task};

// The requests after the command, and what it says. Specs name the fields.
#[derive(Clone, Copy)]
pub struct Asked {
    pub requests: Requests,
    pub said: Said,
}

// ---- document 01's condition of each outcome

fn define_code(o: Result<(), DefineError>) -> u8
    ensures { result ≡ define_gives o }
{
    match o {
        Ok(()) => 0,
        Err(DefineError::Invalid) => 10,
        Err(DefineError::NotUnique) => 7,
        Err(DefineError::NoSpace) => 1,
    }
}

fn start_code(o: Result<(), StartError>) -> u8
    ensures { result ≡ start_gives o }
{
    match o {
        Ok(()) => 0,
        Err(StartError::Invalid) => 10,
        Err(StartError::WrongLength) => 4,
        Err(StartError::UnknownProgram) => 5,
        Err(StartError::UnknownTerminal) => 6,
        Err(StartError::NotUnique) => 7,
        Err(StartError::NoSpace) => 1,
    }
}

fn cancel_code(o: Result<(), CancelError>) -> u8
    ensures { result ≡ cancel_gives o }
{
    match o {
        Ok(()) => 0,
        Err(CancelError::Invalid) => 10,
        Err(CancelError::NotFound) => 8,
    }
}

// "newly expired"
fn passing(o: Result<u32, Invalid>) -> Said
    ensures { result ≡ saying (condition_of o) (number_of o) [] }
{
    match o {
        Ok(n) => plain(0, n),
        Err(Invalid) => plain(10, 0),
    }
}

// "Bytes: request, program, terminal. Number: how many in the line stood before it."
fn started(task: Task, passed: u32) -> Said
    ensures { result ≡ saying 0 passed (bytes_of 8 task.name ++ bytes_of 4 task.program ++ bytes_of 4 task.terminal) }
{
    let mut bytes = [0u8; 16];
    bytes[..8].copy_from_slice(&task.name.to_be_bytes());
    bytes[8..12].copy_from_slice(&task.program.to_be_bytes());
    bytes[12..].copy_from_slice(&task.terminal.to_be_bytes());
    carrying(0, passed, &bytes)
}

fn dispatching(o: Option<Task>, passed: u32) -> Said
    ensures { result ≡ saying (dispatch_gives o) passed (dispatch_bytes o) }
{
    match o {
        Some(task) => started(task, passed),
        None => plain(8, passed),
    }
}

// The first `len` of the bytes, of `full` that there are.
fn handing(o: Option<Data>) -> Said
    requires { IfSome o (λ d. (d.full ≤ 64) × (d.len ≤ 64)) }
    ensures { result ≡ saying (retrieve_gives o) (retrieve_number o) (retrieve_bytes o) }
{
    match o {
        Some(d) => {
            let condition = if d.len < d.full { 4 } else { 0 };
            carrying(condition, d.full as u32, &d.bytes[..d.len])
        }
        None => plain(9, 0),
    }
}

// ---- the commands

// 1 define program: 4
pub fn define_program(t: Requests, rec: &[u8]) -> Asked
    ensures exact { result ≡ asks (runs.turn t (runs.Program (operand 0 4 rec.now))) }
{
    let d = interval::define::define_program(t, records::number4_at(rec, 9));
    Asked {
        requests: d.requests,
        said: plain(define_code(d.outcome), 0),
    }
}

// 2 define terminal: 4
pub fn define_terminal(t: Requests, rec: &[u8]) -> Asked
    ensures exact { result ≡ asks (runs.turn t (runs.Terminal (operand 0 4 rec.now))) }
{
    let d = interval::define::define_terminal(t, records::number4_at(rec, 9));
    Asked {
        requests: d.requests,
        said: plain(define_code(d.outcome), 0),
    }
}

// 3 advance: ticks 4
pub fn advance(t: Requests, rec: &[u8]) -> Asked
    ensures exact { result ≡ asks (runs.turn t (runs.Advance (operand 0 4 rec.now))) }
{
    let a = interval::advance::advance(t, records::number4_at(rec, 9));
    Asked {
        requests: a.requests,
        said: passing(a.outcome),
    }
}

// 4 ask ticks
fn ask_ticks(t: Requests) -> Asked
    ensures { result ≡ asks (runs.turn t runs.AskTicks) }
{
    Asked {
        requests: t,
        said: plain(0, interval::ask::ask(t)),
    }
}

// 5 dispatch
pub fn dispatch(t: Requests) -> Asked
    ensures exact { result ≡ asks (runs.turn t runs.Dispatch) }
{
    let d = interval::dispatch::dispatch(t);
    Asked {
        requests: d.requests,
        said: dispatching(d.started, d.passed),
    }
}

// 6 start: request 8, program 4, terminal 4, interval 4, rest data
pub fn start(t: Requests, rec: &[u8]) -> Asked
    ensures exact { result ≡ asks (runs.turn t (runs.Start (asked rec.now))) }
{
    let a = interval::start::Asked {
        name: records::name_at(rec, 9),
        program: records::number4_at(rec, 17),
        terminal: records::number4_at(rec, 21),
        interval: records::number4_at(rec, 25),
    };
    let s = interval::start::start(t, a, records::rest_at(rec, 29));
    Asked {
        requests: s.requests,
        said: plain(start_code(s.outcome), 0),
    }
}

// 7 cancel: request 8
pub fn cancel(t: Requests, rec: &[u8]) -> Asked
    ensures exact { result ≡ asks (runs.turn t (runs.Cancel (operand 0 8 rec.now))) }
{
    let d = interval::cancel::cancel(t, records::name_at(rec, 9));
    Asked {
        requests: d.requests,
        said: plain(cancel_code(d.outcome), 0),
    }
}

// 8 retrieve: room 1
pub fn retrieve(t: Requests, rec: &[u8]) -> Asked
    ensures exact { result ≡ asks (runs.turn t (runs.Retrieve (issuer rec.now) (operand 0 1 rec.now))) }
{
    let task = records::issuer(rec);
    let room = records::room_at(rec, 9);
    let g = interval::retrieve::retrieve(t, task, room);
    Asked {
        requests: g.requests,
        said: handing(g.outcome),
    }
}

// The command of that number; another is not asked here, and the last stands for it.
pub fn ask(t: Requests, command: u8, rec: &[u8]) -> Asked
    ensures exact { result ≡ asks (runs.turn t (ask_of command rec.now)) }
{
    match command {
        1 => define_program(t, rec),
        2 => define_terminal(t, rec),
        3 => advance(t, rec),
        4 => ask_ticks(t),
        5 => dispatch(t),
        6 => start(t, rec),
        7 => cancel(t, rec),
        _ => retrieve(t, rec),
    }
}
