// Queues in lent words: where each column lies, and the words of occupancy.
#![tactic(auto)]

ghost use Rattle.std.specs.Prelude.{◌≡◌, get_or};
ghost use Rattle.queue_rows.specs.Layout.{Laid, Sized};

use slots::Used;
use words::cells::word_at;

// Where the columns begin, one behind the other, and how many rows and slots there are. Columns, and not rows of several words: queues and slots are lent
// in any proportion, and `base::sets` looks through a column as it lies.
#[derive(Clone, Copy)]
pub struct Columns {
    pub names: usize,
    pub pointers: usize,
    pub owner: usize,
    pub slot: usize,
    pub len: usize,
    pub rows: usize,
    pub slots: usize,
}

// The layout of so many words, with so many bytes lent for the items. Words too few for the head have columns of no length at their end.
pub fn layout(words: usize, bytes: usize) -> Columns
    ensures laid { Laid words result }
    ensures sized { Sized words bytes result }
{
    let names = words.min(3);
    let room = words - names;
    let slots = (bytes / 64).min(room / 3).min(128);
    let rows = (room - 3 * slots) / 2;
    let pointers = names + rows;
    let owner = pointers + rows;
    let slot = owner + slots;
    let len = slot + slots;
    Columns {
        names,
        pointers,
        owner,
        slot,
        len,
        rows,
        slots,
    }
}

// The two words of occupancy.
pub fn used(queues: &[u64]) -> Used
    ensures exact { result ≡ record { lo = get_or queues.now 1 0; hi = get_or queues.now 2 0 } }
{
    Used {
        lo: word_at(queues, 1),
        hi: word_at(queues, 2),
    }
}
