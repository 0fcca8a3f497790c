// Command 13, rewrite: another item in an item's place.
ghost use Rattle.std.specs.Prelude.{◌≡◌, List, ℕ, length};
ghost use Rattle.words.specs.Said.{gave, handed};
ghost use Rattle.queue_rows.specs.Table.{view_of, store};
ghost use Rattle.queue_rows.specs.Rewrite.{rewrite_in};

use crate::table::Table;
use crate::wrong_length;
use base::names::BLANK;
use words::said::{Condition, Said};

// The item in the slot of the one at the place, from 1. The pointer is kept.
pub fn rewrite(queues: &mut [u64], items: &mut [u8], name: u64, place: usize, item: &[u8]) -> Said
    ensures exact { (b : List ℕ) → gave result (store (view_of queues.new (length items.new)) items.new) b ≡ handed (rewrite_in (view_of queues.old (length items.old)) items.old name place item.now) b }
{
    if name == BLANK {
        return Said::plain(Condition::InvalidRequest, 0);
    }
    if wrong_length(item.len()) {
        return Said::plain(Condition::WrongLength, 0);
    }
    let mut table = Table::new(queues, items.len());
    if !table.knows(name) {
        return Said::plain(Condition::UnknownQueue, 0);
    }
    let Some(s) = table.slot_at(name, place) else {
        return Said::plain(Condition::NoSuchItem, 0);
    };
    table.resize(s, item.len());
    base::bytes::store(items, s * 64, item);
    Said::plain(Condition::Normal, 0)
}

impl Table<'_> {
    ghost use Rattle.std.specs.Prelude.{◌≡◌, ◌<◌};
    ghost use Rattle.queue_rows.specs.Rewrite.{resized};
    ghost use Rattle.queue_ops.specs.Seen.{Same, queues_in};

    // A slot holds so many bytes.
    fn resize(&mut self, s: usize, size: usize)
        requires { s < self.old.at.slots }
        ensures same { Same self.old self.new }
        ensures left { queues_in self.new ≡ resized (queues_in self.old) s size }
    {
        let i = self.at.len + s;
        self.words[i] = size as u64;
    }
}
