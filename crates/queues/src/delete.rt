// Delete queue (14): the queue's row goes and its items with it, and their slots are free again.
ghost use Rattle.std.specs.Prelude.{◌≡◌, ◌<◌, ℕ, true, List, []};
ghost use Rattle.model.specs.Queues.{delete};
ghost use Rattle.queues.specs.Table.{rows_in, owners};
ghost use Rattle.base.specs.Lists.{copies};
ghost use Rattle.slots.specs.Told.{Typed};
ghost use Rattle.queues.specs.Model.{queues_of};
ghost use Rattle.queues.specs.Sound.{sound_q, Did};
ghost use Rattle.queues.specs.Delete.{condition_of, number_of, answer, shut_at, emptied, delete_from};

use crate::Queues;
use base::names::BLANK;

#[derive(Clone, Copy)]
pub enum DeleteError {
    UnknownQueue,
    Invalid,
}

// One struct for each command: the specs name their fields.
#[derive(Clone, Copy)]
pub struct Deleted {
    pub queues: Queues,
    pub outcome: Result<u32, DeleteError>, // how many items are freed
}

pub fn delete(mut q: Queues, name: u64) -> Deleted
    ensures exact { result ≡ delete_from q name }
    ensures model { sound_q q ≡ true → (b : List ℕ) → Did q b result.queues b (delete (queues_of q b) name) (condition_of result.outcome) (number_of result.outcome) [] }
{
    let outcome = q.delete(name);
    Deleted { queues: q, outcome }
}

impl Queues {
    #[tactic(auto, using(crate::proofs::DeleteCases::cases), unfolding(crate::specs::Delete::delete_from))]
    fn delete(&mut self, name: u64) -> Result<u32, DeleteError>
        requires { Typed self.old.used }
        ensures { answer self.new result ≡ delete_from self.old name }
    {
        if name == BLANK {
            return Err(DeleteError::Invalid);
        }
        let Some(row) = self.row(name) else {
            return Err(DeleteError::UnknownQueue);
        };
        self.shut(row);
        Ok(self.sweep(name))
    }

    // The row goes: the later ones move down.
    #[tactic(auto, using(crate::proofs::ShutLaws::shut_is))]
    fn shut(&mut self, row: usize)
        requires { row < rows_in self.old }
        ensures { self.new ≡ shut_at self.old row }
    {
        let end = self.count.min(16);
        self.names.copy_within(row + 1..end, row);
        self.pointers.copy_within(row + 1..end, row);
        self.count = end - 1;
    }

    // The entries of the name go, and their slots are free; the later entries move down. How many went.
    // By index: `retain` is of a Vec, and two arrays close up together.
    fn sweep(&mut self, name: u64) -> u32
        requires { Typed self.old.used }
        ensures left { self.new ≡ emptied self.old name }
        ensures gone { result ≡ copies name (owners self.old) }
    {
        let n = self.entries();
        let mut j: usize = 0;
        for i in 0..n {
            let s = self.slot[i];
            if self.owner[i] == name {
                self.used = slots::clear(self.used, usize::from(s));
            } else {
                self.owner[j] = self.owner[i];
                self.slot[j] = s;
                j += 1;
            }
        }
        (n - j) as u32
    }
}
