// Start.
ghost use Rattle.std.specs.Prelude.{◌≡◌, ℕ, ◌≤◌, List, length, IfOk};
ghost use Rattle.model.specs.Interval.{none_or_known};
ghost use Rattle.model.specs.Plans.{Outcome, done};
ghost use Rattle.words.specs.Said.{gave, handed};
ghost use Rattle.names.specs.Names as names;
ghost use Rattle.slots.specs.Bits.{none};
ghost use Rattle.request_rows.specs.Table.{view_of, live};
ghost use Rattle.request_rows.specs.Start.{begun_at, used_from, Kept, kept, begin, start_in};
ghost use Rattle.request_ops.specs.Start.{asks, follows, checked, roomed, Room};

use crate::remove::place;
use base::bytes::store;
use base::names::{BLANK, NONE};
use names::known;
use request_rows::{COUNT, Phase, Request, SLOT, count, live, put_request, register, rows};
use slots::Used;
use words::said::{Condition, Said};

// "P2 interval 359,999,000 accepted, 359,999,001 gets 10."
const MOST_TICKS: u32 = 359_999_000;

// "start data | 0..64 bytes, 0 meaning none"
const MOST_BYTES: usize = 64;

// What a start asks for.
#[derive(Clone, Copy)]
pub struct Asked<'a> {
    pub name: u64,
    pub program: u32,
    pub terminal: u32,
    pub interval: u32,
    pub bytes: &'a [u8],
}

// "Due is clock plus interval. .. interval 0 expires at once."
#[tactic(auto, unfolding(request_rows::specs::Start::begun_at, request_rows::specs::Circle::after))]
fn begun(register: u32, interval: u32) -> Phase
    ensures { result ≡ begun_at register interval }
{
    if interval == 0 {
        Phase::Expired
    } else {
        Phase::Waiting(register.wrapping_add(interval))
    }
}

// "a blank terminal means none"
fn none_or_known(terminals: &[u64], name: u32) -> bool
    ensures { result ≡ none_or_known name (names.names_in (names.view_of terminals.now)) }
{
    name == NONE || known(terminals, name)
}

// What is asked before the requests are looked at: "10 blank request or interval above bound; 4 data over 64; 5; 6".
#[tactic(auto, unfolding(crate::specs::Start::checked))]
fn check(programs: &[u64], terminals: &[u64], a: &Asked) -> Result<(), Condition>
    ensures exact { (s : Kept) (o : Outcome Kept) → follows result s o ≡ checked (names.view_of programs.now) (names.view_of terminals.now) (asks a.now) s o }
    ensures short { IfOk result (λ u. length a.now.bytes.now ≤ 64) }
{
    if a.name == BLANK || a.interval > MOST_TICKS {
        return Err(Condition::InvalidRequest);
    }
    if a.bytes.len() > MOST_BYTES {
        return Err(Condition::WrongLength);
    }
    if !known(programs, a.program) {
        return Err(Condition::UnknownProgram);
    }
    if !none_or_known(terminals, a.terminal) {
        return Err(Condition::UnknownTerminal);
    }
    Ok(())
}

// The slots that the requests have.
fn used(requests: &[u64]) -> Used
    ensures { result ≡ used_from none (live (view_of requests.now)) }
{
    live(requests).iter().fold(
        slots::none(),
        |used, row| slots::mark(used, usize::from(Request::from(*row).slot)),
    )
}

// "1": the lowest slot that no request has, where a row is left behind those in use and the slot's bytes are lent.
#[tactic(auto, using(crate::specs::Laws::Start::no_row_left, crate::specs::Laws::Start::no_slot_left), unfolding(request_rows::specs::Start::free_slot))]
fn room(requests: &[u64], area: &[u8]) -> Result<usize, Condition>
    ensures exact { (s : Kept) (o : Outcome Kept) → follows result s o ≡ roomed (view_of requests.now) area.now s o }
    ensures room { IfOk result (Room (view_of requests.now)) }
{
    if count(requests) >= rows(requests).len() {
        return Err(Condition::NoSpace);
    }
    match slots::free_slot(used(requests), slots::ALL) {
        Some(slot) if slot < area.len() / SLOT => Ok(slot),
        _ => Err(Condition::NoSpace),
    }
}

// The request behind those in use, its data in the slot.
#[tactic(auto, using(request_rows::specs::Laws::View::rows_in_lem))]
fn begin(requests: &mut [u64], area: &mut [u8], a: &Asked, slot: usize)
    requires room { Room (view_of requests.old) slot }
    requires short { length a.now.bytes.now ≤ 64 }
    ensures { kept (view_of requests.new) area.new ≡ begin (view_of requests.old) area.old (asks a.now) slot }
{
    let m = count(requests);
    let q = Request {
        name: a.name,
        program: a.program,
        terminal: a.terminal,
        phase: begun(register(requests), a.interval),
        len: a.bytes.len() as u8,
        slot: slot as u8,
    };
    put_request(requests, m, q);
    requests[COUNT] = (m + 1) as u64;
    store(area, slot * SLOT, a.bytes);
}

// The checks in their order, and the request where none of them holds.
#[tactic(auto, using(crate::specs::Laws::Start::start_taken, crate::specs::Laws::Start::start_on))]
fn accept(
    programs: &[u64],
    terminals: &[u64],
    requests: &mut [u64],
    area: &mut [u8],
    a: &Asked,
) -> Result<(), Condition>
    ensures { let s = kept (view_of requests.new) area.new in follows result s (done s 0) ≡ start_in (names.view_of programs.now) (names.view_of terminals.now) (view_of requests.old) area.old (asks a.now) }
{
    check(programs, terminals, a)?;
    if place(requests, a.name).is_some() {
        return Err(Condition::NotUnique);
    }
    let slot = room(requests, area)?;
    begin(requests, area, a, slot);
    Ok(())
}

// Start, and what is said of it.
pub fn start(
    programs: &[u64],
    terminals: &[u64],
    requests: &mut [u64],
    area: &mut [u8],
    a: &Asked,
) -> Said
    ensures exact { (b : List ℕ) → gave result (kept (view_of requests.new) area.new) b ≡ handed (start_in (names.view_of programs.now) (names.view_of terminals.now) (view_of requests.old) area.old (asks a.now)) b }
{
    match accept(programs, terminals, requests, area, a) {
        Ok(()) => Said::plain(Condition::Normal, 0),
        Err(condition) => Said::plain(condition, 0),
    }
}
