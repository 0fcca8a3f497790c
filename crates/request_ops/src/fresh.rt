// Requests, none made, at a register value.
ghost use Rattle.std.specs.Prelude.{◌≡◌};
ghost use Rattle.request_rows.specs.Table.{view_of};
ghost use Rattle.request_rows.specs.Fresh.{fresh_at};

use request_rows::REGISTER;
use words::cells::{clear, put_word};

#[tactic(auto, using(crate::specs::Laws::Fresh::fresh_words))]
pub fn fresh(requests: &mut [u64], register: u32)
    ensures exact { view_of requests.new ≡ fresh_at (view_of requests.old) register }
{
    clear(requests);
    put_word(requests, REGISTER, u64::from(register));
}
