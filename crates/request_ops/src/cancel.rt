// "Cancel removes a waiting or expired request. An active one gets 8."
ghost use Rattle.std.specs.Prelude.{◌≡◌, ℕ, List};
ghost use Rattle.words.specs.Said.{gave, handed};
ghost use Rattle.request_rows.specs.Table.{view_of};
ghost use Rattle.request_rows.specs.Cancel.{cancel_in};

use crate::remove::{place, remove_at};
use base::names::BLANK;
use request_rows::{Request, live};
use words::said::{Condition, Said};

#[tactic(auto, using(words::specs::Laws::Said::said_plain, crate::specs::Laws::Cancel::cancel_blank, crate::specs::Laws::Cancel::cancel_none, crate::specs::Laws::Cancel::cancelled, request_rows::specs::Laws::View::read_rows))]
pub fn cancel(requests: &mut [u64], name: u64) -> Said
    ensures exact { (b : List ℕ) → gave result (view_of requests.new) b ≡ handed (cancel_in (view_of requests.old) name) b }
{
    if name == BLANK {
        return Said::plain(Condition::InvalidRequest, 0);
    }
    let Some(i) = place(requests, name) else {
        return Said::plain(Condition::NotFound, 0);
    };
    if Request::from(live(requests)[i]).phase.is_active() {
        return Said::plain(Condition::NotFound, 0);
    }
    remove_at(requests, i);
    Said::plain(Condition::Normal, 0)
}
