// Temporary storage: named queues over slots.
// The older form of queue_rows, queue_ops and queue_sound, which takes and gives its table by value; it goes when the tables in place take over
// (docs/DECISIONS.md).
#![tactic(auto)]

ghost use Rattle.std.specs.Prelude.{◌≡◌, ◌≤◌, eqb, position};
ghost use Rattle.base.specs.Lists.{copies};
ghost use Rattle.queues.specs.Table.{names_of, pointers_of, entries, owners, places};

pub mod append;
pub mod delete;
pub mod fresh;
pub mod place;
pub mod read;
pub mod rewrite;
pub mod sound;

use base::sets::{front, tally};
use slots::Used;

// Rows 0..count of names and pointers are the queues, in the order in which they were made. The items are entries, as many as slots are in
// use, in the order of append: entry e is an item of the queue owner[e] and lies in slot slot[e], which holds len[slot[e]] bytes. Places past
// a count keep what they held and mean nothing. The bytes lie beside the struct, 64 to a slot, and are lent to what needs them.
// Arrays and a count beside them, and no type that rules a value out: any tables get a reply. Names and pointers, owners and slots are
// columns, as the layout's theorems speak of them.
#[derive(Clone, Copy)]
pub struct Queues {
    pub count: usize,
    pub names: [u64; 16],
    pub pointers: [u8; 16],
    pub used: Used,
    pub owner: [u64; 128],
    pub slot: [u8; 128],
    pub len: [u8; 128],
}

// What the counts leave of the arrays.
impl Queues {
    fn row_names(&self) -> &[u64]
        ensures { result.now ≡ names_of self.now }
    {
        front(&self.names, self.count)
    }

    fn row_pointers(&self) -> &[u8]
        ensures { result.now ≡ pointers_of self.now }
    {
        front(&self.pointers, self.count)
    }

    fn entries(&self) -> usize
        ensures { result ≡ entries self.now }
    {
        slots::count(self.used)
    }

    fn owners(&self) -> &[u64]
        ensures { result.now ≡ owners self.now }
    {
        front(&self.owner, self.entries())
    }

    fn places(&self) -> &[u8]
        ensures { result.now ≡ places self.now }
    {
        front(&self.slot, self.entries())
    }

    // How many items the queue of that name has.
    #[tactic(auto, using(crate::proofs::Rows::few_copies))]
    fn items(&self, name: u64) -> usize
        ensures is { result ≡ copies name (owners self.now) }
        ensures few { result ≤ 128 }
    {
        tally(&self.owner, self.entries(), name)
    }

    // The row of the queue of that name, if there is one.
    fn row(&self, name: u64) -> Option<usize>
        ensures { result ≡ position (λ m. eqb m name) (names_of self.now) }
    {
        self.row_names().iter().position(|m| *m == name)
    }
}
