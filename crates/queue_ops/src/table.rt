// The queues in lent words, and where in them a queue and its items stand.
ghost use Rattle.std.specs.Prelude.{◌≡◌, length, take, slice_get};
ghost use Rattle.queue_rows.specs.Table.{slots_of};
ghost use Rattle.queue_rows.specs.Layout.{Laid};

use base::sets::{front, has};
use queue_rows::{Columns, layout, used};
use slots::Used;
use words::cells::word_at;
use words::rows::find;

// The words with their layout, so that no method has to be told that the one is the other's. One that writes says that it keeps both, `Same`:
// what a caller's words become is what stands behind the same reference.
#[derive(Drop)]
pub(crate) struct Table<'a> {
    pub words: &'a mut [u64],
    pub at: Columns,
    pub ghost laid: { Laid (length words.now) at },
}

impl<'a> Table<'a> {
    ghost use Rattle.std.specs.Prelude.{◌≡◌, length, eqb, position};
    ghost use Rattle.base.specs.Lists.{has};
    ghost use Rattle.queue_rows.specs.Table.{names_of};
    ghost use Rattle.queue_rows.specs.Layout.{Sized};
    ghost use Rattle.queue_ops.specs.Seen.{queues_in, found_in};

    // The words, with so many bytes lent for the items.
    pub fn new(words: &'a mut [u64], bytes: usize) -> Table<'a>
        ensures same { result.words.ghost_name ≡ words.entry.ghost_name }
        ensures lent { result.words.now ≡ words.old }
        ensures sized { Sized (length words.old) bytes result.at }
    {
        let at = layout(words.len(), bytes);
        Table { words, at }
    }

    // How many rows are counted.
    pub fn count(&self) -> usize
        ensures exact { result ≡ (queues_in self.now).count }
    {
        word_at(self.words, 0) as usize
    }

    // The words of occupancy.
    pub fn used(&self) -> Used
        ensures exact { result ≡ (queues_in self.now).used }
    {
        used(self.words)
    }

    // Whether a name has a row.
    pub fn knows(&self, name: u64) -> bool
        ensures exact { result ≡ has name (names_of (queues_in self.now)) }
    {
        let Columns {
            names,
            pointers,
            ..
        } = self.at;
        has(&self.words[names..pointers], self.count(), &name)
    }

    // The row of a name, if it has one.
    pub fn row_of(&self, name: u64) -> Option<usize>
        ensures exact { result ≡ position (λ m. eqb m name) (names_of (queues_in self.now)) }
    {
        let Columns {
            names,
            pointers,
            ..
        } = self.at;
        let counted = front(&self.words[names..pointers], self.count());
        find(counted, 0, name)
    }

    // The slot of the queue's item at a place, from 1, if an item stands there.
    pub fn slot_at(&self, name: u64, place: usize) -> Option<usize>
        ensures exact { result ≡ found_in (queues_in self.now) name place }
    {
        let Columns {
            owner,
            slot,
            len,
            slots,
            ..
        } = self.at;
        let n = slots::count(self.used());
        let index = place.checked_sub(1)?;
        let s = nth(
            &self.words[owner..slot],
            &self.words[slot..len],
            n,
            name,
            index,
        )?;
        if s < slots && self.words[len + s] <= 64 {
            Some(s)
        } else {
            None
        }
    }
}

// Of the first n entries, the slot of the name's that stands behind `index` others of its.
fn nth(owner: &[u64], slot: &[u64], n: usize, name: u64, index: usize) -> Option<usize>
    ensures exact { result ≡ slice_get (slots_of name (take n owner.now) (take n slot.now)) index }
{
    front(owner, n)
        .iter()
        .zip(front(slot, n))
        .filter(|(o, _)| **o == name)
        .map(|(_, s)| *s as usize)
        .nth(index)
}
