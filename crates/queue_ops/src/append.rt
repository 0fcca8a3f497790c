// Command 10, append: an item at the end of a queue.
ghost use Rattle.std.specs.Prelude.{◌≡◌, List, ℕ, length};
ghost use Rattle.words.specs.Said.{gave, handed};
ghost use Rattle.queue_rows.specs.Table.{view_of, store};
ghost use Rattle.queue_rows.specs.Append.{append_to};

use crate::table::Table;
use crate::wrong_length;
use base::names::BLANK;
use base::sets::tally;
use queue_rows::Columns;
use slots::Used;
use words::said::{Condition, Said};

// The item into the lowest free slot, as the last entry; an unknown name is made a queue. `may` is how many slots the asker may fill.
pub fn append(queues: &mut [u64], items: &mut [u8], may: usize, name: u64, item: &[u8]) -> Said
    ensures exact { (b : List ℕ) → gave result (store (view_of queues.new (length items.new)) items.new) b ≡ handed (append_to (view_of queues.old (length items.old)) items.old may name item.now) b }
{
    if name == BLANK {
        return Said::plain(Condition::InvalidRequest, 0);
    }
    if wrong_length(item.len()) {
        return Said::plain(Condition::WrongLength, 0);
    }
    let mut table = Table::new(queues, items.len());
    if table.with_row(name) {
        return table.into_slot(items, may, name, item);
    }
    Said::plain(Condition::NoSpace, 0)
}

impl Table<'_> {
    ghost use Rattle.std.specs.Prelude.{◌≡◌, List, ℕ, ◌<◌, min};
    ghost use Rattle.slots.specs.Bits.{free_for};
    ghost use Rattle.words.specs.Said.{gave, handed};
    ghost use Rattle.base.specs.Lists.{copies};
    ghost use Rattle.queue_rows.specs.Table.{owners, store};
    ghost use Rattle.queue_rows.specs.Append.{in_slot};
    ghost use Rattle.queue_ops.specs.Entry.{Rowed, entered};
    ghost use Rattle.queue_ops.specs.Seen.{Same, queues_in};

    // Whether the name has a row, or there is one for it: it is made then.
    fn with_row(&mut self, name: u64) -> bool
        ensures same { Same self.old self.new }
        ensures rowed { Rowed (queues_in self.old) (queues_in self.new) name result }
    {
        let Columns {
            names,
            pointers,
            rows,
            ..
        } = self.at;
        if self.knows(name) {
            return true;
        }
        let count = self.count();
        if count >= rows {
            return false;
        }
        let queues = &mut *self.words;
        queues[names + count] = name;
        queues[pointers + count] = 0;
        queues[0] = (count + 1) as u64;
        true
    }

    // The item of a queue that has a row.
    fn into_slot(&mut self, items: &mut [u8], may: usize, name: u64, item: &[u8]) -> Said
        ensures same { Same self.old self.new }
        ensures exact { (b : List ℕ) → gave result (store (queues_in self.new) items.new) b ≡ handed (in_slot (queues_in self.old) items.old name item.now (free_for (min may self.old.at.slots) (queues_in self.old).used)) b }
    {
        let u = self.used();
        let Some(k) = slots::free_slot(u, may.min(self.at.slots)) else {
            return Said::plain(Condition::NoSpace, 0);
        };
        let place = self.items_of(name) + 1;
        self.enter(slots::mark(u, k), slots::count(u), name, k, item.len());
        base::bytes::store(items, k * 64, item);
        Said::plain(Condition::Normal, place as u32)
    }

    // How many items the name's queue has.
    fn items_of(&self, name: u64) -> usize
        ensures { result ≡ copies name (owners (queues_in self.now)) }
    {
        let Columns { owner, slot, .. } = self.at;
        tally(&self.words[owner..slot], slots::count(self.used()), name)
    }

    // An entry behind the e others, in slot k, of so many bytes; and the words of occupancy in which the slot is marked.
    fn enter(&mut self, u: Used, e: usize, name: u64, k: usize, size: usize)
        requires { (e < self.old.at.slots) × (k < self.old.at.slots) }
        ensures same { Same self.old self.new }
        ensures left { queues_in self.new ≡ entered (queues_in self.old) u e name k size }
    {
        let Columns {
            owner,
            slot,
            len,
            ..
        } = self.at;
        let queues = &mut *self.words;
        queues[1] = u.lo;
        queues[2] = u.hi;
        queues[owner + e] = name;
        queues[slot + e] = k as u64;
        queues[len + k] = size as u64;
    }
}
