// Bytes as numbers, and bytes laid over bytes.
ghost use Rattle.std.specs.Prelude.{◌≡◌, ◌<◌, ◌^◌, min, length, take};
ghost use Rattle.base.specs.Bytes.{num, stored};
ghost use Rattle.base.specs.Lists.{over};

use crate::sets::front;

// "All numbers big-endian": the n bytes at a place, at most 8, or those of them that are there. (`from_be_bytes` wants as many as its type has.)
pub fn number_at(l: &[u8], at: usize, n: usize) -> u64
    ensures exact { result ≡ num at (min n 8) l.now }
    ensures small { result < 256 ^ min n 8 }
{
    let mut a: u64 = 0;
    for byte in front(&l[at.min(l.len())..], n.min(8)) {
        let b = u64::from(*byte);
        a = a * 256 + b;
    }
    a
}

// The bytes of s at the front of d, as many as it has room for; all behind them are kept.
pub fn lay(d: &mut [u8], s: &[u8])
    ensures exact { d.new ≡ over (take (length d.old) s.now) d.old }
{
    let n = s.len().min(d.len());
    d[..n].copy_from_slice(&s[..n]);
}

// The bytes of s from a place on, and nothing where they do not fit.
pub fn store(d: &mut [u8], at: usize, s: &[u8])
    ensures exact { d.new ≡ stored d.old at s.now }
{
    if s.len() <= d.len() && at <= d.len() - s.len() {
        d[at..at + s.len()].copy_from_slice(s);
    }
}
