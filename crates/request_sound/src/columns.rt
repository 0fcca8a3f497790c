// The columns of the rows in which none may stand twice. How many rows there are is what is lent, so a column is not gathered: each row is held to
// those before it.
ghost use Rattle.std.specs.Prelude.{◌≡◌, map};
ghost use Rattle.base.specs.Lists.{has, once};
ghost use Rattle.request_rows.specs.Rows.{row_of};
ghost use Rattle.request_sound.specs.Sound.{key_of, column, seen};

use base::names::NONE;
use request_rows::Request;

// The definitions of soundness speak of columns by this enum, so no closure stands for one. A row has its name and its data slot; its program, where it is active; its terminal, where it is active and has one.
#[derive(Clone, Copy, PartialEq, Eq)]
pub(crate) enum Column {
    Name,
    Slot,
    Program,
    Terminal,
}

// What a request has in a column, if it has anything there.
fn key_of(q: Request, which: Column) -> Option<u64>
    ensures { result ≡ key_of which q }
{
    let active = q.phase.is_active();
    match which {
        Column::Name => Some(q.name),
        Column::Slot => Some(u64::from(q.slot)),
        Column::Program => active.then_some(u64::from(q.program)),
        Column::Terminal => (active && q.terminal != NONE).then_some(u64::from(q.terminal)),
    }
}

// Whether one of the rows has that key in the column.
fn stands(rows: &[[u64; 4]], which: Column, key: u64) -> bool
    ensures { result ≡ has key (column which (map row_of rows.now)) }
{
    rows.iter()
        .any(|row| key_of(Request::from(*row), which) == Some(key))
}

// Whether what a row has in the column stands there in one of those rows.
fn seen(row: [u64; 4], rows: &[[u64; 4]], which: Column) -> bool
    ensures { result ≡ seen which (row_of row) (map row_of rows.now) }
{
    match key_of(Request::from(row), which) {
        Some(key) => stands(rows, which, key),
        None => false,
    }
}

// "names are unique"; "no two active tasks share a program, or a terminal other than none"; each request has a slot of its own.
pub(crate) fn unique(rows: &[[u64; 4]], which: Column) -> bool
    ensures { result ≡ once (column which (map row_of rows.now)) }
{
    for (i, row) in rows.iter().enumerate() {
        if seen(*row, &rows[..i], which) {
            return false;
        }
    }
    true
}
