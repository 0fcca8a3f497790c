// Commands 11 and 12, read next and read at: an item, as much of it as there is room for. It stays stored.
ghost use Rattle.std.specs.Prelude.{◌≡◌, length};
ghost use Rattle.words.specs.Said.{gave, handed};
ghost use Rattle.queue_rows.specs.Table.{view_of};
ghost use Rattle.queue_rows.specs.Read.{read_in, read_next_in};

use crate::table::Table;
use base::bytes::lay;
use base::names::BLANK;
use words::cells::word_at;
use words::said::{Condition, Said};

// The item behind the pointer; the pointer moves there.
pub fn read_next(queues: &mut [u64], items: &[u8], name: u64, room: usize, body: &mut [u8]) -> Said
    ensures exact { gave result (view_of queues.new (length items.now)) body.new ≡ handed (read_next_in (view_of queues.old (length items.now)) items.now name room) body.old }
{
    let mut table = Table::new(queues, items.len());
    let row = table.row_of(name);
    // No item stands behind the greatest pointer there can be, nor at it.
    let place = table.pointer_of(row).saturating_add(1);
    table.give(items, Asked { name, row, place }, room, body)
}

// The item at a place, from 1; the pointer is set to it.
pub fn read_at(
    queues: &mut [u64],
    items: &[u8],
    name: u64,
    place: usize,
    room: usize,
    body: &mut [u8],
) -> Said
    ensures exact { gave result (view_of queues.new (length items.now)) body.new ≡ handed (read_in (view_of queues.old (length items.now)) items.now name place room) body.old }
{
    let mut table = Table::new(queues, items.len());
    let row = table.row_of(name);
    table.give(items, Asked { name, row, place }, room, body)
}

// The item that is asked for: its queue, with the row if it has one, and its place there, from 1.
#[derive(Clone, Copy)]
struct Asked {
    name: u64,
    row: Option<usize>,
    place: usize,
}

impl Table<'_> {
    ghost use Rattle.std.specs.Prelude.{◌≡◌, ◌≤◌, ◌*◌, eqb, position, length, get_or, MatchOption};
    ghost use Rattle.words.specs.Said.{gave, handed};
    ghost use Rattle.queue_rows.specs.Table.{names_of};
    ghost use Rattle.queue_rows.specs.Read.{read_in};
    ghost use Rattle.queue_ops.specs.Seen.{Same, queues_in};

    // The pointer in a row; 0 where there is none, and a read then finds no queue.
    fn pointer_of(&self, row: Option<usize>) -> usize
        ensures { MatchOption row (result ≡ 0) (λ r. result ≡ get_or (queues_in self.now).pointers r 0) }
    {
        let Some(row) = row else { return 0 };
        let pointers = self.at.pointers;
        let owner = self.at.owner;
        word_at(&self.words[pointers..owner], row) as usize
    }

    // The item that is asked for; the pointer is set to it.
    fn give(&mut self, items: &[u8], asked: Asked, room: usize, body: &mut [u8]) -> Said
        requires lent { self.old.at.slots * 64 ≤ length items.now }
        requires row { asked.row ≡ position (λ m. eqb m asked.name) (names_of (queues_in self.old)) }
        ensures same { Same self.old self.new }
        ensures exact { gave result (queues_in self.new) body.new ≡ handed (read_in (queues_in self.old) items.now asked.name asked.place room) body.old }
    {
        let Asked { name, row, place } = asked;
        if name == BLANK {
            return Said::plain(Condition::InvalidRequest, 0);
        }
        let Some(row) = row else {
            return Said::plain(Condition::UnknownQueue, 0);
        };
        let Some(s) = self.slot_at(name, place) else {
            return Said::plain(Condition::NoSuchItem, 0);
        };
        let from = self.at.len + s;
        let to = self.at.pointers + row;
        let full = self.words[from] as usize;
        self.words[to] = place as u64;
        let len = full.min(room);
        let at = s * 64;
        lay(body, &items[at..at + len]);
        Said {
            condition: Condition::of_cut(full, room),
            number: full as u32,
            len,
        }
    }
}
