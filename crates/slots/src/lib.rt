// The occupancy of the 128 slots: two 64-bit words. An item takes the lowest free slot.
// No function that a caller can name requires anything: each answers for every pair of words and every slot number.
#![tactic(auto)]

ghost use Rattle.std.specs.Prelude.{◌≡◌, ◌<◌, eqb, cond};
ghost use Rattle.slots.specs.Bits.{bit, with_bit, lowest_clear, number, held, none, free_for, used_at, put, marked, cleared};
ghost use Rattle.slots.specs.Told.{Found, Alone};

// The number of the slots: what one may have in use who has no share of his own.
pub const ALL: usize = 128;

// Slot k is bit k of lo, and slot 64 + k is bit k of hi; a set bit is a slot in use.
#[derive(Clone, Copy, PartialEq, Eq, Debug)]
pub struct Used {
    pub lo: u64,
    pub hi: u64,
}

// All slots free.
pub fn none() -> Used
    ensures exact { result ≡ none }
{
    Used { lo: 0, hi: 0 }
}

// How many slots are in use.
pub fn count(u: Used) -> usize
    ensures exact { result ≡ held u }
{
    (u.lo.count_ones() + u.hi.count_ones()) as usize
}

// The lowest free slot, for one who may have `may` slots in use: none where as many are, or all 128.
pub fn free_slot(u: Used, may: usize) -> Option<usize>
    ensures exact { result ≡ free_for may u }
    ensures found { Found may u result }
{
    let n = count(u);
    if n < may.min(ALL) {
        Some(lowest(u))
    } else {
        None
    }
}

// Whether slot k is in use; past the 128 none is.
pub fn is_used(u: Used, k: usize) -> bool
    ensures exact { result ≡ used_at u k }
{
    if k < 64 {
        is_set(u.lo, k)
    } else {
        k < ALL && is_set(u.hi, k - 64)
    }
}

// Slot k in use: nothing changes where it is, or past the 128.
pub fn mark(u: Used, k: usize) -> Used
    ensures exact { result ≡ marked u k }
    ensures alone { Alone u k 1 result }
{
    set_slot(u, k, true)
}

// Slot k free: nothing changes where it is, or past the 128.
pub fn clear(u: Used, k: usize) -> Used
    ensures exact { result ≡ cleared u k }
    ensures alone { Alone u k 0 result }
{
    set_slot(u, k, false)
}

// "Trailing zeros of the complement finds the lowest free slot": the lowest clear bit of the 128, and 128 where there is none. No `Option`: its one caller
// knows that there is one.
fn lowest(u: Used) -> usize
    ensures { result ≡ lowest_clear (number u) 128 }
{
    let low = u.lo.trailing_ones();
    if low < 64 {
        low as usize
    } else {
        64 + u.hi.trailing_ones() as usize
    }
}

fn set_slot(u: Used, k: usize, on: bool) -> Used
    ensures { result ≡ put u k (cond on 1 0) }
{
    if k < 64 {
        Used {
            lo: set_bit(u.lo, k, on),
            ..u
        }
    } else if k < ALL {
        Used {
            hi: set_bit(u.hi, k - 64, on),
            ..u
        }
    } else {
        u
    }
}

fn is_set(w: u64, k: usize) -> bool
    requires { k < 64 }
    ensures { result ≡ eqb (bit w k) 1 }
{
    (w >> k) & 1 == 1
}

fn set_bit(w: u64, k: usize, on: bool) -> u64
    requires { k < 64 }
    ensures { result ≡ with_bit w k (cond on 1 0) }
{
    let bit = 1 << k;
    if on { w | bit } else { w & !bit }
}
