// Lists of numbers as sets: the first n of a slice, or all of it where it has fewer.
// No function requires anything.
ghost use Rattle.std.specs.Prelude.{◌≡◌, take};
ghost use Rattle.base.specs.Lists.{any, copies, once, within};

// The first n, or all where there are fewer.
pub fn front<T>(l: &[T], n: usize) -> &[T]
    ensures exact { result.now ≡ take n l.now }
{
    &l[..n.min(l.len())]
}

// Whether x is among the first n, of any type that has an equality.
pub fn has<T: PartialEq>(l: &[T], n: usize, x: &T) -> bool
    ensures exact { result ≡ any (λ y. T.eq y x.now) (take n l.now) }
{
    front(l, n).contains(x)
}

// How often x is among the first n.
#[tactic(auto, using(crate::specs::Laws::Library::copies_of))]
pub fn tally(l: &[u64], n: usize, x: u64) -> usize
    ensures exact { result ≡ copies x (take n l.now) }
{
    front(l, n).iter().filter(|y| **y == x).count()
}

// Whether none of the first n stands among them twice: each is looked for among those before it.
pub fn once(l: &[u64], n: usize) -> bool
    ensures exact { result ≡ once (take n l.now) }
{
    let first = front(l, n);
    for (i, x) in first.iter().enumerate() {
        if has(first, i, x) {
            return false;
        }
    }
    true
}

// Whether each of the first n of l is among the first m of k.
pub fn within(l: &[u64], n: usize, k: &[u64], m: usize) -> bool
    ensures exact { result ≡ within (take n l.now) (take m k.now) }
{
    front(l, n).iter().all(|x| has(k, m, x))
}
