// Whether queues are sound: every rule of document 01 that speaks of queues and slots.
ghost use Rattle.std.specs.Prelude.{◌≡◌, not, ◌&&◌, leb, zip};
ghost use Rattle.std.specs.List.{list_all};
ghost use Rattle.base.specs.Lists.{all, has, once, copies};
ghost use Rattle.base.specs.Bytes.{blank};
ghost use Rattle.slots.specs.Bits.{used_at};
ghost use Rattle.slots.specs.Told.{Typed};
ghost use Rattle.queues.specs.Table.{names_of, pointers_of, owners, places};
ghost use Rattle.queues.specs.Sound.{length_in, sound_q};

use crate::Queues;
use crate::place::is_item;
use base::names::BLANK;
use base::sets::{has, once, within};

impl Queues {
    // At most 16 names, none of them twice, and none blank.
    fn names_sound(&self) -> bool
        ensures { result ≡ (leb self.now.count 16 && once (names_of self.now) && not (has (blank 8) (names_of self.now))) }
    {
        self.count <= 16 && once(&self.names, self.count) && !has(&self.names, self.count, &BLANK)
    }

    // Each pointer is at most the number of its queue's items.
    fn pointers_sound(&self) -> bool
        ensures { result ≡ list_all (λ x. leb x.1 (copies x.0 (owners self.now))) (zip (names_of self.now) (pointers_of self.now)) }
    {
        self.row_names()
            .iter()
            .zip(self.row_pointers())
            .all(|(name, p)| usize::from(*p) <= self.items(*name))
    }

    // No slot twice, and each marked: each one's bit is set, and is cleared.
    fn slots_sound(&self) -> bool
        requires { Typed self.now.used }
        ensures { result ≡ (once (places self.now) && all (used_at self.now.used) (places self.now)) }
    {
        let mut left = self.used;
        for slot in self.places() {
            let s = usize::from(*slot);
            if !slots::is_used(left, s) {
                return false;
            }
            left = slots::clear(left, s);
        }
        true
    }

    // The slot holds an item's length.
    fn length_in(&self, s: usize) -> bool
        ensures { result ≡ length_in self.now s }
    {
        s < 128 && is_item(usize::from(self.len[s]))
    }

    fn lengths_sound(&self) -> bool
        ensures { result ≡ list_all (length_in self.now) (places self.now) }
    {
        self.places()
            .iter()
            .all(|s| self.length_in(usize::from(*s)))
    }
}

pub fn sound(q: Queues) -> bool
    ensures exact { result ≡ sound_q q }
{
    q.names_sound()
        && within(&q.owner, q.entries(), &q.names, q.count)
        && q.pointers_sound()
        && q.slots_sound()
        && q.lengths_sound()
}
