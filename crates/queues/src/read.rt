// Commands 11 and 12, read next and read at: where an item lies in the bytes that the caller holds. The item stays stored.
ghost use Rattle.std.specs.Prelude.{◌≡◌, ◌<◌, true, List, ℕ, length, ltb};
ghost use Rattle.model.specs.Queues as model;
ghost use Rattle.queues.specs.Model.{queues_of};
ghost use Rattle.queues.specs.Sound.{sound_q, Did};
ghost use Rattle.queues.specs.Read.{condition_of, number_of, bytes_of, Lies, pointer_of, answer, read_in, read_next_in};

use super::Queues;
use base::names::BLANK;

// The item lies at `at` in the lent bytes, is `full` bytes long, and `len` of them fit the room.
#[derive(Clone, Copy)]
pub struct Part {
    pub at: usize,
    pub full: usize,
    pub len: usize,
}

impl Part {
    // Whether the room is shorter than the item.
    pub fn is_cut(&self) -> bool
        ensures exact { result ≡ ltb self.now.len self.now.full }
    {
        self.len < self.full
    }
}

#[derive(Clone, Copy)]
pub enum ReadError {
    NoSuchItem,
    UnknownQueue,
    Invalid,
}

// One struct for each command: the specs name their fields.
#[derive(Clone, Copy)]
pub struct Read {
    pub queues: Queues,
    pub outcome: Result<Part, ReadError>,
}

// The item behind the pointer; the pointer moves there.
pub fn read_next(mut q: Queues, name: u64, room: usize) -> Read
    ensures exact { result ≡ read_next_in q name room }
    ensures model { sound_q q ≡ true → (b : List ℕ) → length b ≡ 8192 → Did q b result.queues b (model.read_next (queues_of q b) name room) (condition_of result.outcome) (number_of result.outcome) (bytes_of b result.outcome) }
    ensures lies { Lies result.outcome }
{
    let outcome = q.read(name, q.pointer(name) + 1, room);
    Read { queues: q, outcome }
}

// The item at a place, from 1; the pointer is set to it.
pub fn read_at(mut q: Queues, name: u64, place: usize, room: usize) -> Read
    ensures exact { result ≡ read_in q name place room }
    ensures model { sound_q q ≡ true → (b : List ℕ) → length b ≡ 8192 → Did q b result.queues b (model.read_at (queues_of q b) name place room) (condition_of result.outcome) (number_of result.outcome) (bytes_of b result.outcome) }
    ensures lies { Lies result.outcome }
{
    let outcome = q.read(name, place, room);
    Read { queues: q, outcome }
}

impl Queues {
    // The pointer of the queue, and 0 where the name has none: a read then finds no queue.
    #[tactic(auto, using(crate::proofs::ReadCases::pointers))]
    fn pointer(&self, name: u64) -> usize
        ensures is { result ≡ pointer_of self.now name }
        ensures byte { result < 256 }
    {
        match self.row(name) {
            Some(row) => usize::from(self.pointers[row]),
            None => 0,
        }
    }

    // The whole item, or as much as there is room for.
    #[tactic(auto, using(crate::proofs::ReadCases::cases), unfolding(crate::specs::Read::read_in))]
    fn read(&mut self, name: u64, place: usize, room: usize) -> Result<Part, ReadError>
        ensures { answer self.new result ≡ read_in self.old name place room }
    {
        if name == BLANK {
            return Err(ReadError::Invalid);
        }
        let Some(row) = self.row(name) else {
            return Err(ReadError::UnknownQueue);
        };
        let Some(s) = self.slot_at(name, place) else {
            return Err(ReadError::NoSuchItem);
        };
        let full = usize::from(self.len[s]);
        self.pointers[row] = place as u8;
        Ok(Part {
            at: s * 64,
            full,
            len: full.min(room),
        })
    }
}
