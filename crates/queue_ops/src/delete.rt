// Command 14, delete queue: the queue's row goes and its items with it, and their slots are free again.
ghost use Rattle.std.specs.Prelude.{◌≡◌, List, ℕ, ◌≤◌, ◌+◌, length, take, drop};
ghost use Rattle.words.specs.Said.{gave, handed};
ghost use Rattle.queue_rows.specs.Table.{view_of};
ghost use Rattle.queue_rows.specs.Delete.{delete_from};
ghost use Rattle.queue_ops.specs.Sweep.{Swept};

use crate::table::Table;
use base::names::BLANK;
use queue_rows::Columns;
use slots::Used;
use words::rows::shut;
use words::said::{Condition, Said};

pub fn delete(queues: &mut [u64], items: &[u8], name: u64) -> Said
    ensures exact { (b : List ℕ) → gave result (view_of queues.new (length items.now)) b ≡ handed (delete_from (view_of queues.old (length items.now)) name) b }
{
    if name == BLANK {
        return Said::plain(Condition::InvalidRequest, 0);
    }
    let mut table = Table::new(queues, items.len());
    let Some(row) = table.row_of(name) else {
        return Said::plain(Condition::UnknownQueue, 0);
    };
    table.shut_row(row);
    let freed = table.sweep(name);
    Said::plain(Condition::Normal, freed as u32)
}

impl Table<'_> {
    ghost use Rattle.std.specs.Prelude.{◌≡◌, ◌<◌, ◌≤◌, min, length};
    ghost use Rattle.base.specs.Lists.{copies};
    ghost use Rattle.queue_rows.specs.Table.{owners};
    ghost use Rattle.queue_rows.specs.Delete.{emptied};
    ghost use Rattle.queue_ops.specs.Row.{less_row};
    ghost use Rattle.queue_ops.specs.Seen.{Same, queues_in};

    // The row goes, and the later ones move down.
    fn shut_row(&mut self, row: usize)
        requires { row < min (queues_in self.old).count self.old.at.rows }
        ensures same { Same self.old self.new }
        ensures left { queues_in self.new ≡ less_row (queues_in self.old) row }
    {
        let Columns {
            names,
            pointers,
            rows,
            ..
        } = self.at;
        let m = self.count().min(rows);
        shut(&mut self.words[names..names + m], row, 1);
        shut(&mut self.words[pointers..pointers + m], row, 1);
        self.words[0] = (m - 1) as u64;
    }

    // The entries of the name go, and their slots are free; how many they were.
    fn sweep(&mut self, name: u64) -> usize
        requires { 3 ≤ length self.old.words.now }
        ensures same { Same self.old self.new }
        ensures freed { result ≡ copies name (owners (queues_in self.old)) }
        ensures left { queues_in self.new ≡ emptied (queues_in self.old) name }
    {
        let Columns {
            owner,
            len,
            slots,
            ..
        } = self.at;
        let u = self.used();
        let n = slots::count(u).min(slots);
        let kept = keep_others(&mut self.words[owner..len], slots, n, name, u);
        let v = kept.used;
        self.words[1] = v.lo;
        self.words[2] = v.hi;
        n - kept.count
    }
}

#[derive(Clone, Copy)]
struct Kept {
    used: Used, // what is in use
    count: usize, // how many entries stay
}

// Of the first n entries those of the name go, and the others move down; the slots stand behind the owners, as many of both.
fn keep_others(entries: &mut [u64], slots: usize, n: usize, name: u64, u: Used) -> Kept
    requires { (length entries.old ≡ slots + slots) × (n ≤ slots) }
    ensures { Swept name (take slots entries.old) (drop slots entries.old) u n result.used result.count (take slots entries.new) (drop slots entries.new) }
{
    // Two slices lose the same entries, so no method of one of them serves.
    let (owner, slot) = entries.split_at_mut(slots);
    let mut v = u;
    let mut j: usize = 0;
    for i in 0..n {
        let o = owner[i];
        let s = slot[i];
        if o == name {
            v = slots::clear(v, s as usize);
        } else {
            owner[j] = o;
            slot[j] = s;
            j += 1;
        }
    }
    Kept { used: v, count: j }
}
