// Whether requests are sound: every rule of document 01 that speaks of programs, terminals and requests.
ghost use Rattle.std.specs.Prelude.{◌≡◌, ◌&&◌, ◌||◌, ◌==◌, not, nat_le};
ghost use Rattle.std.specs.List.{list_any, list_all};
ghost use Rattle.base.specs.Lists.{once};
ghost use Rattle.base.specs.Bytes.{blank};
ghost use Rattle.interval.specs.Table.{live};
ghost use Rattle.interval.specs.Stands.{sound_r};
ghost use Rattle.interval.specs.Sound.{phase_fits, sound_in, is_in, value_in, key_of, column, names_fit, checked};

use crate::{Phase, Request, Requests};
use base::names::{BLANK, NONE};
use base::sets::{front, has};

// What no two rows may share: an enum and no closure, since specs speak of `column c`.
#[derive(Clone, Copy)]
enum Column {
    Name,
    Program,
    Terminal,
}

// No more names than there is room for, none of them twice, and none blank.
fn names_sound(names: &[u32], count: usize) -> bool
    ensures { result ≡ names_fit count names.now }
{
    if count > names.len() {
        return false;
    }
    let known = front(names, count);
    for (i, name) in known.iter().enumerate() {
        if *name == NONE {
            return false;
        }
        if has(known, i, name) {
            return false;
        }
    }
    true
}

// A row has its name; its program, where it is active; its terminal, where it is active and has one.
fn key_of(q: &Request, c: Column) -> Option<u64>
    ensures { result ≡ key_of c q.now }
{
    match c {
        Column::Name => Some(q.name),
        Column::Program if q.phase.is_active() => Some(u64::from(q.program)),
        Column::Terminal if q.phase.is_active() && q.terminal != NONE => {
            Some(u64::from(q.terminal))
        }
        _ => None,
    }
}

fn has_key(q: &Request, c: Column, key: u64) -> bool
    ensures { result ≡ (is_in c q.now && value_in c q.now == key) }
{
    key_of(q, c) == Some(key)
}

fn is_taken(rows: &[Request], c: Column, key: u64) -> bool
    ensures { result ≡ list_any (λ q. is_in c q && value_in c q == key) rows.now }
{
    rows.iter().any(|q| has_key(q, c, key))
}

// "names are unique"; "no two active tasks share a program, or a terminal other than none": none stands twice in the column.
fn unique(rows: &[Request], c: Column) -> bool
    ensures { result ≡ once (column c rows.now) }
{
    for (i, q) in rows.iter().enumerate() {
        if let Some(key) = key_of(q, c) {
            if is_taken(&rows[..i], c, key) {
                return false;
            }
        }
    }
    true
}

// "1..359,999,000 ticks"
fn ahead(ticks: u32) -> bool
    ensures { result ≡ (nat_le 1 ticks && nat_le ticks 359_999_000) }
{
    ticks >= 1 && ticks <= 359_999_000
}

// Whether a phase suits the length of the data, by the ticks to go on the register's circle.
#[tactic(auto, unfolding(crate::specs::Circle::to_go))]
fn phase_sound(p: Phase, len: u8, register: u32) -> bool
    ensures { result ≡ phase_fits register len p }
{
    match p {
        Phase::Waiting(due) => ahead(due.wrapping_sub(register)),
        Phase::Expired => true,
        Phase::Active(taken) => !taken || len >= 1,
    }
}

// One row, whose program is known or not, and whose terminal is.
fn row_fits(q: Request, register: u32, program: bool, terminal: bool) -> bool
    ensures { result ≡ (nat_le q.len 64 && not (q.name == blank 8) && program && (q.terminal == blank 4 || terminal) && phase_fits register q.len q.phase) }
{
    q.len <= 64
        && q.name != BLANK
        && program
        && (q.terminal == NONE || terminal)
        && phase_sound(q.phase, q.len, register)
}

fn row_sound(t: &Requests, q: Request) -> bool
    ensures { result ≡ sound_in t.now q }
{
    let program = has(&t.programs, t.pcount, &q.program);
    let terminal = has(&t.terminals, t.tcount, &q.terminal);
    row_fits(q, t.register, program, terminal)
}

fn rows_sound(t: &Requests) -> bool
    ensures { result ≡ list_all (sound_in t.now) (live t.now) }
{
    t.live().iter().all(|q| row_sound(t, *q))
}

fn all_sound(t: &Requests) -> bool
    ensures { result ≡ checked t.now }
{
    t.count <= 32
        && names_sound(&t.programs, t.pcount)
        && names_sound(&t.terminals, t.tcount)
        && rows_sound(t)
        && unique(t.live(), Column::Name)
        && unique(t.live(), Column::Program)
        && unique(t.live(), Column::Terminal)
}

pub fn sound(t: Requests) -> bool
    ensures exact { result ≡ sound_r t }
{
    all_sound(&t)
}
