// Command 13, rewrite: another item in an item's place.
ghost use Rattle.std.specs.Prelude.{◌≡◌, true, []};
ghost use Rattle.model.specs.Limits.{cabinet};
ghost use Rattle.model.specs.Queues as model;
ghost use Rattle.queues.specs.Model.{queues_of};
ghost use Rattle.queues.specs.Sound.{sound_q, Did};
ghost use Rattle.queues.specs.Rewrite.{condition_of, lent, answer, rewrite_in};

use super::Queues;
use super::place::is_item;
use base::bytes::store;
use base::names::BLANK;

#[derive(Clone, Copy)]
pub enum RewriteError {
    WrongLength,
    UnknownQueue,
    NoSuchItem,
    Invalid,
}

// One struct for each command: the specs name their fields.
#[derive(Clone, Copy)]
pub struct Rewritten {
    pub queues: Queues,
    pub outcome: Result<(), RewriteError>,
}

// The item in the slot of the one at the place, from 1. The pointer is kept.
pub fn rewrite(
    mut q: Queues,
    items: &mut [u8; 8192],
    name: u64,
    place: usize,
    item: &[u8],
) -> Rewritten
    ensures exact { lent result items.new ≡ rewrite_in q items.old name place item.now }
    ensures model { sound_q q ≡ true → Did q items.old result.queues items.new (model.rewrite cabinet (queues_of q items.old) name place item.now) (condition_of result.outcome) 0 [] }
{
    let outcome = q.rewrite(items, name, place, item);
    Rewritten { queues: q, outcome }
}

impl Queues {
    #[tactic(auto, using(crate::proofs::RewriteCases::cases), unfolding(crate::specs::Rewrite::rewrite_in))]
    fn rewrite(
        &mut self,
        items: &mut [u8; 8192],
        name: u64,
        place: usize,
        item: &[u8],
    ) -> Result<(), RewriteError>
        ensures { answer self.new items.new result ≡ rewrite_in self.old items.old name place item.now }
    {
        let m = item.len();
        if name == BLANK {
            return Err(RewriteError::Invalid);
        }
        if !is_item(m) {
            return Err(RewriteError::WrongLength);
        }
        if self.row(name).is_none() {
            return Err(RewriteError::UnknownQueue);
        }
        let Some(s) = self.slot_at(name, place) else {
            return Err(RewriteError::NoSuchItem);
        };
        self.len[s] = m as u8;
        store(items, s * 64, item);
        Ok(())
    }
}
