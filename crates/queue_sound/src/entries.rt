// The rules of entries, of which there are n: each has a slot of its own, which is marked and holds 1 to 64 bytes.
ghost use Rattle.std.specs.Prelude.{◌≡◌, ◌&&◌, leb, length, take};
ghost use Rattle.base.specs.Lists.{all, once};
ghost use Rattle.slots.specs.Bits.{used_at};
ghost use Rattle.queue_sound.specs.Parts.{filled, entries_sound};

use base::sets::front;
use slots::Used;

// No more entries than slots, no slot twice, and each marked: each one's bit is set, and is cleared.
fn slots_sound(slot: &[u64], n: usize, u: Used) -> bool
    ensures { result ≡ (leb n (length slot.now) && (once (take n slot.now) && all (used_at u) (take n slot.now))) }
{
    if n > slot.len() {
        return false;
    }
    let mut v = u;
    for s in front(slot, n) {
        let s = *s as usize;
        if !slots::is_used(v, s) {
            return false;
        }
        v = slots::clear(v, s);
    }
    true
}

// The slot is one of those that are lent, and holds 1 to 64 bytes.
fn is_filled(len: &[u64], s: usize) -> bool
    ensures { result ≡ filled len.now s }
{
    s < len.len() && (1..=64).contains(&len[s])
}

// Each entry's slot is lent and holds 1 to 64 bytes.
fn lengths_sound(slot: &[u64], n: usize, len: &[u64]) -> bool
    ensures { result ≡ all (filled len.now) (take n slot.now) }
{
    front(slot, n).iter().all(|s| is_filled(len, *s as usize))
}

// Slots and lengths are sound.
pub(crate) fn entries_sound(slot: &[u64], len: &[u64], n: usize, u: Used) -> bool
    ensures { result ≡ entries_sound u n slot.now len.now }
{
    slots_sound(slot, n, u) && lengths_sound(slot, n, len)
}
