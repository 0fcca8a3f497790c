// "ask ticks | none | register"
ghost use Rattle.std.specs.Prelude.{◌≡◌, ℕ, List};
ghost use Rattle.words.specs.Said.{gave, handed};
ghost use Rattle.request_rows.specs.Table.{view_of};
ghost use Rattle.request_rows.specs.Advance.{ask_in};

use request_rows::register;
use words::said::{Condition, Said};

#[tactic(auto, using(words::specs::Laws::Said::said_plain), unfolding(request_rows::specs::Advance::ask_in))]
pub fn ask(requests: &[u64]) -> Said
    ensures exact { (b : List ℕ) → gave result (view_of requests.now) b ≡ handed (ask_in (view_of requests.now)) b }
{
    Said::plain(Condition::Normal, register(requests))
}
