// Cancel.
ghost use Rattle.std.specs.Prelude.{◌≡◌, []};
ghost use Rattle.model.specs.Interval as model;
ghost use Rattle.interval.specs.Stands.{Does};
ghost use Rattle.interval.specs.Cancel.{cancelled, cancel_in, cancel_gives};

use crate::Requests;
use crate::answers::{CancelError, Cancelled};
use base::names::BLANK;

impl Requests {
    fn cancel(&mut self, name: u64) -> Result<(), CancelError>
        ensures { cancelled self.new result ≡ cancel_in self.old name }
    {
        if name == BLANK {
            return Err(CancelError::Invalid);
        }
        match self.place(name) {
            Some(i) if !self.rows[i].phase.is_active() => {
                self.close(i);
                Ok(())
            }
            _ => Err(CancelError::NotFound),
        }
    }
}

// "Cancel removes a waiting or expired request. An active one gets 8."
pub fn cancel(mut t: Requests, name: u64) -> Cancelled
    ensures exact { result ≡ cancel_in t name }
    ensures model { Does t result.requests (λ i. model.cancel i name) (cancel_gives result.outcome) 0 [] }
{
    let outcome = t.cancel(name);
    Cancelled {
        requests: t,
        outcome,
    }
}
