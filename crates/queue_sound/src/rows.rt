// The rules of rows: `count` names and pointers, and the owners of n entries.
ghost use Rattle.std.specs.Prelude.{◌≡◌, not, ◌&&◌, leb, length, take};
ghost use Rattle.base.specs.Lists.{has, once};
ghost use Rattle.base.specs.Bytes.{blank};
ghost use Rattle.queue_rows.specs.Sound.{pointed};
ghost use Rattle.queue_sound.specs.Parts.{rows_sound};

use base::names::BLANK;
use base::sets::{front, has, once, tally, within};

// No more names than rows, none of them twice, and none blank.
fn names_sound(names: &[u64], count: usize) -> bool
    ensures { result ≡ (leb count (length names.now) && once (take count names.now) && not (has (blank 8) (take count names.now))) }
{
    count <= names.len() && once(names, count) && !has(names, count, &BLANK)
}

// Each pointer is at most the number of its queue's items.
fn pointers_sound(names: &[u64], pointers: &[u64], count: usize, owner: &[u64], n: usize) -> bool
    ensures { result ≡ pointed (take n owner.now) (take count names.now) (take count pointers.now) }
{
    let mut rows = front(names, count).iter().zip(front(pointers, count));
    rows.all(|(name, pointer)| *pointer as usize <= tally(owner, n, *name))
}

// Names and pointers are sound, and each entry is an item of a queue.
pub(crate) fn rows_sound(
    names: &[u64],
    pointers: &[u64],
    count: usize,
    owner: &[u64],
    n: usize,
) -> bool
    ensures { result ≡ rows_sound count names.now pointers.now (take n owner.now) }
{
    names_sound(names, count)
        && within(owner, n, names, count)
        && pointers_sound(names, pointers, count, owner, n)
}
