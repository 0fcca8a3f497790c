// Whether programs, terminals, requests and the bytes of their data are sound: every rule of document 01 that speaks of them.
#![tactic(auto)]

ghost use Rattle.std.specs.Prelude.{◌≡◌, ◌&&◌, length, ◌==◌, nat_le};
ghost use Rattle.base.specs.Lists.{all};
ghost use Rattle.names.specs.Names as names;
ghost use Rattle.request_rows.specs.Table.{view_of, live};
ghost use Rattle.request_rows.specs.Stands.{memory, sound_r};
ghost use Rattle.request_sound.specs.Sound.{sound_in, apart, headed, checked};

use crate::columns::{Column, unique};
use crate::row::row_sound;
use names::known;
use request_rows::{Request, live, register, rows};
use words::cells::word_at;

mod columns;
mod row;

// There is a register, and no more requests than rows.
fn headed(t: &[u64]) -> bool
    ensures { result ≡ headed (view_of t.now) }
{
    t.len() >= 1 && word_at(t, 1) as usize <= rows(t).len()
}

// Each row by itself.
fn rows_sound(programs: &[u64], terminals: &[u64], requests: &[u64], slots: usize) -> bool
    ensures { result ≡ all (sound_in (names.view_of programs.now) (names.view_of terminals.now) (view_of requests.now) slots) (live (view_of requests.now)) }
{
    let tick = register(requests);
    live(requests).iter().all(|row| {
        let q = Request::from(*row);
        row_sound(
            q,
            tick,
            slots,
            known(programs, q.program),
            known(terminals, q.terminal),
        )
    })
}

// None stands twice in any of the four columns.
fn all_unique(t: &[u64]) -> bool
    ensures { result ≡ apart (live (view_of t.now)) }
{
    let rows = live(t);
    unique(rows, Column::Name)
        && unique(rows, Column::Slot)
        && unique(rows, Column::Program)
        && unique(rows, Column::Terminal)
}

// Every part by itself, where there are so many slots.
fn parts_sound(programs: &[u64], terminals: &[u64], requests: &[u64], slots: usize) -> bool
    ensures { result ≡ checked (names.view_of programs.now) (names.view_of terminals.now) (view_of requests.now) slots }
{
    names::sound(programs)
        && names::sound(terminals)
        && headed(requests)
        && rows_sound(programs, terminals, requests, slots)
        && all_unique(requests)
}

// "the bounds hold; names are unique within their kind .. and not blank; .. every waiting request has its ticks to go in the range above; every
// request names a known program and a known terminal or none; no two active tasks share a program, or a terminal other than none; .. data of 0
// bytes is never marked taken"
pub fn sound(programs: &[u64], terminals: &[u64], requests: &[u64], area: &[u8]) -> bool
    ensures exact { result ≡ sound_r (memory (names.view_of programs.now) (names.view_of terminals.now) (view_of requests.now) area.now) }
{
    let slots = (area.len() / 64).min(128);
    parts_sound(programs, terminals, requests, slots)
}
