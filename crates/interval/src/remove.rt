// A request goes, and its data with it: a task that ends, or that abends.
ghost use Rattle.std.specs.Prelude.{◌≡◌, ℕ, true};
ghost use Rattle.interval.specs.Stands.{Means, sound_r};
ghost use Rattle.interval.specs.Remove.{remove_in, Removed};

use crate::Requests;

// The first request of that name goes, and those behind it move down; where there is none, nothing does.
pub fn remove(mut t: Requests, name: u64) -> Requests
    ensures exact { result ≡ remove_in t name }
    ensures model { (c : ℕ) → Means t c → sound_r t ≡ true → Removed c t name result }
{
    if let Some(i) = t.place(name) {
        t.close(i);
    }
    t
}
