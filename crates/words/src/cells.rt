// A word of a slice. Past the end there is none: it reads as 0, and a store there changes nothing, since any words that are lent get a reply.
ghost use Rattle.std.specs.Prelude.{◌≡◌, length, get_or, set, replicate};

pub fn word_at(t: &[u64], i: usize) -> u64
    ensures exact { result ≡ get_or t.now i 0 }
{
    t.get(i).copied().unwrap_or(0)
}

pub fn put_word(t: &mut [u64], i: usize, v: u64)
    ensures exact { t.new ≡ set t.old i v }
{
    // (not `get_mut`: no clause of it says what a write through it leaves)
    if i < t.len() {
        t[i] = v;
    }
}

// All words 0.
pub fn clear(t: &mut [u64])
    ensures exact { t.new ≡ replicate (length t.old) 0 }
{
    t.fill(0);
}
