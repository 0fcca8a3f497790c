// Command 10, append: an item at the end of a queue.
ghost use Rattle.std.specs.Prelude.{◌≡◌, ◌≤◌, ◌<◌, ◌+◌, true, [], IfOk};
ghost use Rattle.base.specs.Lists.{copies};
ghost use Rattle.model.specs.Limits.{cabinet};
ghost use Rattle.model.specs.Queues as model;
ghost use Rattle.queues.specs.Table.{entries, owners};
ghost use Rattle.queues.specs.Model.{queues_of};
ghost use Rattle.queues.specs.Sound.{sound_q, Did};
ghost use Rattle.queues.specs.Append.{condition_of, number_of, lent, answer, put, append_to, checked};

use super::Queues;
use super::place::is_item;
use base::bytes::store;
use base::names::BLANK;

#[derive(Clone, Copy)]
pub enum AppendError {
    NoSpace,
    WrongLength,
    Invalid,
}

// One struct for each command, and none generic in the outcome: the specs name their fields.
#[derive(Clone, Copy)]
pub struct Appended {
    pub queues: Queues,
    pub outcome: Result<u32, AppendError>, // the place of the item
}

// The item into the lowest free slot, as the last entry; an unknown name is made a queue. `may` is how many slots the asker may fill.
pub fn append(mut q: Queues, items: &mut [u8; 8192], may: usize, name: u64, item: &[u8]) -> Appended
    ensures exact { lent result items.new ≡ append_to q items.old may name item.now }
    ensures model { sound_q q ≡ true → may ≤ 128 → Did q items.old result.queues items.new (model.append cabinet may (queues_of q items.old) name item.now) (condition_of result.outcome) (number_of result.outcome) [] }
{
    let outcome = q.append(items, may, name, item);
    Appended { queues: q, outcome }
}

impl Queues {
    fn append(
        &mut self,
        items: &mut [u8; 8192],
        may: usize,
        name: u64,
        item: &[u8],
    ) -> Result<u32, AppendError>
        ensures { answer self.new items.new result ≡ append_to self.old items.old may name item.now }
    {
        let row = self.checked(name, item.len())?;
        if row >= self.count {
            self.names[row] = name;
            self.pointers[row] = 0;
            self.count = row + 1;
        }
        let Some(k) = slots::free_slot(self.used, may) else {
            return Err(AppendError::NoSpace);
        };
        let place = self.put(name, item.len(), k);
        store(items, k * 64, item);
        Ok(place)
    }

    // The entry of an item of `size` bytes in slot k, behind the others: its place in the queue.
    #[tactic(auto, using(crate::proofs::AppendCases::stores_put))]
    fn put(&mut self, name: u64, size: usize, k: usize) -> u32
        requires { (entries self.old < 128) × (size ≤ 64) × (k < 128) }
        ensures entry { self.new ≡ put self.old name size k }
        ensures place { result ≡ copies name (owners self.old) + 1 }
    {
        let e = self.entries();
        let place = self.items(name) + 1;
        self.owner[e] = name;
        self.slot[e] = k as u8;
        self.len[k] = size as u8;
        self.used = slots::mark(self.used, k);
        place as u32
    }

    // The checks of the name and the length, in order; and the row that the name has, or is to have.
    // The place behind the rows is the new row: one number serves both.
    #[tactic(auto, using(crate::proofs::AppendCases::checks), unfolding(crate::specs::Append::checked))]
    fn checked(&self, name: u64, n: usize) -> Result<usize, AppendError>
        ensures is { result ≡ checked self.now name n }
        ensures below { IfOk result (λ r. r < 16) }
    {
        if name == BLANK {
            return Err(AppendError::Invalid);
        }
        if !is_item(n) {
            return Err(AppendError::WrongLength);
        }
        match self.row(name) {
            Some(row) => Ok(row),
            None if self.count < 16 => Ok(self.count),
            None => Err(AppendError::NoSpace),
        }
    }
}
