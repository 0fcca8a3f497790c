// The slot of the item at a place of a queue.
ghost use Rattle.std.specs.Prelude.{◌≡◌, ◌<◌, ◌&&◌, leb, slice_get, IfSome};
ghost use Rattle.queues.specs.Table.{slots_in};
ghost use Rattle.queues.specs.Place.{slot_in};

use crate::Queues;

// "item length | 1..64 bytes"
pub(crate) fn is_item(n: usize) -> bool
    ensures { result ≡ (leb 1 n && leb n 64) }
{
    1 <= n && n <= 64
}

impl Queues {
    // The slot of the queue's item that stands behind `index` others, if there is one.
    // A `for`, as a read in a full queue is measured (docs/SPEED.md); queue_ops has the same as a chain.
    fn nth(&self, name: u64, index: usize) -> Option<usize>
        ensures { result ≡ slice_get (slots_in self.now name) index }
    {
        let mut before = index;
        let owners = self.owners();
        for (e, owner) in owners.iter().enumerate() {
            if *owner == name {
                if before == 0 {
                    return Some(usize::from(self.slot[e]));
                }
                before -= 1;
            }
        }
        None
    }

    // The slot of the queue's item at a place, from 1, if there is one.
    #[tactic(auto, unfolding(crate::specs::Place::slot_at))]
    pub(crate) fn slot_at(&self, name: u64, place: usize) -> Option<usize>
        ensures is { result ≡ slot_in self.now name place }
        ensures below { IfSome result (λ s. s < 128) }
    {
        let s = self.nth(name, place.checked_sub(1)?)?;
        if s < 128 && self.len[s] <= 64 {
            Some(s)
        } else {
            None
        }
    }
}
