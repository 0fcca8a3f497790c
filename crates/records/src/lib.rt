// What one record says: "command byte, 8-byte issuer, operands" (document 01, "The list and the answers"), and the columns of the table of commands that
// need no table: the size of the operands, the kind of the issuer, and the part that obeys.
// No function requires anything: each answers for every slice of bytes.
#![tactic(auto)]

ghost use Rattle.std.specs.Prelude.{◌≡◌, drop};
ghost use Rattle.base.specs.Bytes.{num};
ghost use Rattle.model.specs.Commands.{command, issuer, fits, formed, wrong_kind, row_of};
ghost use Rattle.records.specs.Rows.{size_of, shaped_as, shut_to, Columns};

use base::bytes::number_at;
use base::names::BLANK;

// ---- its fields

// A reader for each width: as short as the impls that one reader for all of them would need.
pub fn number4_at(rec: &[u8], at: usize) -> u32
    ensures exact { result ≡ num at 4 rec.now }
{
    number_at(rec, at, 4) as u32
}

pub fn number2_at(rec: &[u8], at: usize) -> u16
    ensures exact { result ≡ num at 2 rec.now }
{
    number_at(rec, at, 2) as u16
}

pub fn number1_at(rec: &[u8], at: usize) -> u8
    ensures exact { result ≡ num at 1 rec.now }
{
    number_at(rec, at, 1) as u8
}

// A room, and a place in a queue: as places and lengths are reckoned.
pub fn room_at(rec: &[u8], at: usize) -> usize
    ensures exact { result ≡ num at 1 rec.now }
{
    usize::from(number1_at(rec, at))
}

pub fn place_at(rec: &[u8], at: usize) -> usize
    ensures exact { result ≡ num at 2 rec.now }
{
    usize::from(number2_at(rec, at))
}

// Each record has one, its issuer: eight bytes are read at once, and one by one only where the record cuts them off (docs/SPEED.md).
pub fn name_at(rec: &[u8], at: usize) -> u64
    ensures exact { result ≡ num at 8 rec.now }
{
    let l = rest_at(rec, at);
    if l.len() < 8 {
        return number_at(rec, at, 8);
    }
    u64::from_be_bytes([l[0], l[1], l[2], l[3], l[4], l[5], l[6], l[7]])
}

// "Every byte left" from a place on: none where the record ends before it.
pub fn rest_at<'a>(rec: &'a [u8], at: usize) -> &'a [u8]
    ensures exact { result.now ≡ drop at rec.now }
{
    &rec[at.min(rec.len())..]
}

pub fn command(rec: &[u8]) -> u8
    ensures exact { result ≡ command rec.now }
{
    // 0 is no command's number, so such a record is malformed
    rec.first().copied().unwrap_or(0)
}

pub fn issuer(rec: &[u8]) -> u64
    ensures exact { result ≡ issuer rec.now }
{
    name_at(rec, 1)
}

// The sizes that operands may have.
#[derive(Clone, Copy)]
pub enum Extent {
    Exactly(usize),
    AtLeast(usize),
    Never,
}

impl Extent {
    pub fn fits(self, n: usize) -> bool
        ensures exact { result ≡ fits (size_of self) n }
    {
        match self {
            Extent::Exactly(k) => n == k,
            Extent::AtLeast(k) => k <= n,
            Extent::Never => false,
        }
    }
}

// Who may send a command: "Sys" and "task" in its row, or anyone.
#[derive(Clone, Copy)]
pub enum Kind {
    Anyone,
    System,
    Task,
}

// The part that obeys a command. A task that finishes leaves two of them.
#[derive(Clone, Copy)]
pub enum Part {
    Interval,
    Finish,
    Queues,
    Settings,
}

#[derive(Clone, Copy)]
pub struct Row(pub Extent, pub Kind, pub Part);

// The table of commands, by their numbers: an enum of the 17 would be a second table beside it. A command "not 1..17" has operands that never fit.
pub fn row_of(command: u8) -> Row
    ensures exact { Columns command result }
{
    match command {
        1 => Row(Extent::Exactly(4), Kind::System, Part::Interval), // define program
        2 => Row(Extent::Exactly(4), Kind::System, Part::Interval), // define terminal
        3 => Row(Extent::Exactly(4), Kind::System, Part::Interval), // advance
        4 => Row(Extent::Exactly(0), Kind::Anyone, Part::Interval), // ask ticks
        5 => Row(Extent::Exactly(0), Kind::System, Part::Interval), // dispatch
        6 => Row(Extent::AtLeast(20), Kind::Anyone, Part::Interval), // start
        7 => Row(Extent::Exactly(8), Kind::Anyone, Part::Interval), // cancel
        8 => Row(Extent::Exactly(1), Kind::Task, Part::Interval), // retrieve
        9 => Row(Extent::Exactly(0), Kind::Task, Part::Finish), // finish
        10 => Row(Extent::AtLeast(8), Kind::Anyone, Part::Queues), // append
        11 => Row(Extent::Exactly(9), Kind::Anyone, Part::Queues), // read next
        12 => Row(Extent::Exactly(11), Kind::Anyone, Part::Queues), // read at
        13 => Row(Extent::AtLeast(10), Kind::Anyone, Part::Queues), // rewrite
        14 => Row(Extent::Exactly(8), Kind::Anyone, Part::Queues), // delete queue
        15 => Row(Extent::Exactly(3), Kind::Task, Part::Settings), // handle
        16 => Row(Extent::Exactly(1), Kind::Task, Part::Settings), // ignore
        17 => Row(Extent::Exactly(1), Kind::Task, Part::Settings), // reset
        _ => Row(Extent::Never, Kind::Anyone, Part::Interval),
    }
}

// ---- what a record's row says of it: who reads the row asks these, and so reads it once

// "33 malformed (command not 1..17, or operands not of the size below)"; "A record of fewer than 9 bytes is malformed".
pub fn shaped(size: Extent, rec: &[u8]) -> bool
    ensures exact { result ≡ shaped_as (size_of size) rec.now }
{
    9 <= rec.len() && size.fits(rec.len() - 9)
}

// "Any other issuer gets 10, before every condition in the row."
pub fn shut_to(kind: Kind, system: bool) -> bool
    ensures exact { result ≡ shut_to kind system }
{
    match kind {
        Kind::Anyone => false,
        Kind::System => !system,
        Kind::Task => system,
    }
}

// ---- the same, of a record whose row was not read before

pub fn formed(rec: &[u8]) -> bool
    ensures exact { result ≡ formed rec.now }
{
    let Row(size, _, _) = row_of(command(rec));
    shaped(size, rec)
}

// A blank issuer is the system.
pub fn wrong_kind(command: u8, issuer: u64) -> bool
    ensures exact { result ≡ wrong_kind (row_of command).who issuer }
{
    let Row(_, kind, _) = row_of(command);
    shut_to(kind, issuer == BLANK)
}
