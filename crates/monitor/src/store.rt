// Commands 10 to 14: the record is read, and temporary storage is asked. The bytes of the items are lent.
ghost use Rattle.std.specs.Prelude.{◌≡◌, length, take, drop, List, [], ℕ, Ok};
ghost use Rattle.model.specs.Commands.{operand, rest};
ghost use Rattle.queues.specs.Append as append;
ghost use Rattle.queues.specs.Delete as delete;
ghost use Rattle.queues.specs.Rewrite as rewrite;
ghost use Rattle.queues.specs.Read.{condition_of, number_of, bytes_of, Inside, Lies};
ghost use Rattle.queues.specs.Runs.{Append, Next, At, Rewrite, Delete, store, turn};
ghost use Rattle.monitor.specs.Answers.{saying};
ghost use Rattle.monitor.specs.Store.{lent, stores, store_ask};

use crate::answers::{Said, carrying, plain};
use queues::Queues;
use queues::append::AppendError;
use queues::delete::DeleteError;
use queues::read::{Part, ReadError};
use queues::rewrite::RewriteError;

// The queues after the command, and what it says. Specs name the fields.
#[derive(Clone, Copy)]
pub struct Stored {
    pub queues: Queues,
    pub said: Said,
}

// ---- document 01's condition, number and bytes of each outcome

fn appending(o: Result<u32, AppendError>) -> Said
    ensures { result ≡ saying (append.condition_of o) (append.number_of o) [] }
{
    match o {
        Ok(place) => plain(0, place),
        Err(AppendError::NoSpace) => plain(1, 0),
        Err(AppendError::WrongLength) => plain(4, 0),
        Err(AppendError::Invalid) => plain(10, 0),
    }
}

fn rewriting(o: Result<(), RewriteError>) -> Said
    ensures { result ≡ saying (rewrite.condition_of o) 0 [] }
{
    match o {
        Ok(()) => plain(0, 0),
        Err(RewriteError::WrongLength) => plain(4, 0),
        Err(RewriteError::UnknownQueue) => plain(2, 0),
        Err(RewriteError::NoSuchItem) => plain(3, 0),
        Err(RewriteError::Invalid) => plain(10, 0),
    }
}

fn deleting(o: Result<u32, DeleteError>) -> Said
    ensures { result ≡ saying (delete.condition_of o) (delete.number_of o) [] }
{
    match o {
        Ok(n) => plain(0, n),
        Err(DeleteError::UnknownQueue) => plain(2, 0),
        Err(DeleteError::Invalid) => plain(10, 0),
    }
}

fn part(items: &[u8], p: Part) -> Said
    requires { (length items.now ≡ 8192) × Inside p }
    ensures { result ≡ saying (condition_of (Ok p)) p.full (take p.len (drop p.at items.now)) }
{
    let condition = if p.is_cut() { 4 } else { 0 };
    carrying(condition, p.full as u32, &items[p.at..p.at + p.len])
}

fn reading(items: &[u8], o: Result<Part, ReadError>) -> Said
    requires { (length items.now ≡ 8192) × Lies o }
    ensures { result ≡ saying (condition_of o) (number_of o) (bytes_of items.now o) }
{
    match o {
        Ok(p) => part(items, p),
        Err(ReadError::NoSuchItem) => plain(3, 0),
        Err(ReadError::UnknownQueue) => plain(2, 0),
        Err(ReadError::Invalid) => plain(10, 0),
    }
}

// ---- the commands

// 10 append: queue 8, rest item
pub fn append(q: Queues, items: &mut [u8; 8192], rec: &[u8]) -> Stored
    ensures exact { lent result items.new ≡ stores (turn (store q items.old) (Append (operand 0 8 rec.now) (rest 8 rec.now))) }
{
    let name = records::name_at(rec, 9);
    let a = queues::append::append(q, items, slots::ALL, name, records::rest_at(rec, 17));
    Stored {
        queues: a.queues,
        said: appending(a.outcome),
    }
}

// 11 read next: queue 8, room 1
pub fn read_next(q: Queues, items: &[u8; 8192], rec: &[u8]) -> Stored
    ensures exact { lent result items.now ≡ stores (turn (store q items.now) (Next (operand 0 8 rec.now) (operand 8 1 rec.now))) }
{
    let name = records::name_at(rec, 9);
    let room = records::room_at(rec, 17);
    let g = queues::read::read_next(q, name, room);
    Stored {
        queues: g.queues,
        said: reading(items, g.outcome),
    }
}

// 12 read at: queue 8, place 2, room 1
pub fn read_at(q: Queues, items: &[u8; 8192], rec: &[u8]) -> Stored
    ensures exact { lent result items.now ≡ stores (turn (store q items.now) (At (operand 0 8 rec.now) (operand 8 2 rec.now) (operand 10 1 rec.now))) }
{
    let name = records::name_at(rec, 9);
    let place = records::place_at(rec, 17);
    let room = records::room_at(rec, 19);
    let g = queues::read::read_at(q, name, place, room);
    Stored {
        queues: g.queues,
        said: reading(items, g.outcome),
    }
}

// 13 rewrite: queue 8, place 2, rest item
pub fn rewrite(q: Queues, items: &mut [u8; 8192], rec: &[u8]) -> Stored
    ensures exact { lent result items.new ≡ stores (turn (store q items.old) (Rewrite (operand 0 8 rec.now) (operand 8 2 rec.now) (rest 10 rec.now))) }
{
    let name = records::name_at(rec, 9);
    let place = records::place_at(rec, 17);
    let w = queues::rewrite::rewrite(q, items, name, place, records::rest_at(rec, 19));
    Stored {
        queues: w.queues,
        said: rewriting(w.outcome),
    }
}

// 14 delete queue: 8
pub fn delete(q: Queues, rec: &[u8]) -> Stored
    ensures exact { (b : List ℕ) → lent result b ≡ stores (turn (store q b) (Delete (operand 0 8 rec.now))) }
{
    let d = queues::delete::delete(q, records::name_at(rec, 9));
    Stored {
        queues: d.queues,
        said: deleting(d.outcome),
    }
}

// The command of that number; another is not asked here, and the last stands for it.
#[tactic(auto, unfolding(crate::specs::Store::store_ask))]
pub fn ask(q: Queues, items: &mut [u8; 8192], command: u8, rec: &[u8]) -> Stored
    ensures exact { lent result items.new ≡ stores (turn (store q items.old) (store_ask command rec.now)) }
{
    match command {
        10 => append(q, items, rec),
        11 => read_next(q, items, rec),
        12 => read_at(q, items, rec),
        13 => rewrite(q, items, rec),
        _ => delete(q, rec),
    }
}
