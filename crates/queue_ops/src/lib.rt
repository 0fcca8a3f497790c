// Temporary storage over lent words: append, read next, read at, rewrite, delete queue, and fresh queues.
// No function that another crate can call requires anything: each answers for every slice, sound or not.
#![tactic(auto)]

ghost use Rattle.std.specs.Prelude.{◌≡◌, not, ◌||◌, leb, ltb};

pub mod append;
pub mod delete;
pub mod fresh;
pub mod read;
pub mod rewrite;
mod table;

// "4 length not 1..64"
fn wrong_length(n: usize) -> bool
    ensures { result ≡ (not (leb 1 n) || ltb 64 n) }
{
    !(1..=64).contains(&n)
}
