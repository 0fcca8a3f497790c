// Whether the queues in lent words are sound: every rule of document 01 that speaks of queues and slots, for any words.
// No function requires anything: each answers for every slice.
#![tactic(auto)]

mod entries;
mod rows;

ghost use Rattle.std.specs.Prelude.{◌≡◌, length};
ghost use Rattle.queue_rows.specs.Table.{view_of};
ghost use Rattle.queue_rows.specs.Sound.{sound_q};

use crate::entries::entries_sound;
use crate::rows::rows_sound;
use queue_rows::{Columns, layout, used};
use words::cells::word_at;

// Each column is lent up to where the next begins. An entry is counted for each slot in use.
pub fn sound(queues: &[u64], items: &[u8]) -> bool
    ensures exact { result ≡ sound_q (view_of queues.now (length items.now)) }
{
    let Columns {
        names,
        pointers,
        owner,
        slot,
        len,
        slots,
        ..
    } = layout(queues.len(), items.len());
    let count = word_at(queues, 0) as usize;
    let u = used(queues);
    let n = slots::count(u);
    rows_sound(
        &queues[names..pointers],
        &queues[pointers..owner],
        count,
        &queues[owner..slot],
        n,
    ) && entries_sound(&queues[slot..len], &queues[len..len + slots], n, u)
}
