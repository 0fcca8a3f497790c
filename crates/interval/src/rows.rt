// The rows that are requests: phases, where a name stands, and a row less.
ghost use Rattle.std.specs.Prelude.{◌≡◌, ◌<◌, length, position};
ghost use Rattle.base.specs.Lists.{cut_at};
ghost use Rattle.interval.specs.Table.{live, with_live, in_phase};
ghost use Rattle.interval.specs.Rows.{is_expired, is_active, not_taken, named, data_of};

use crate::{Phase, Request, Requests};
use base::sets::front;

// Crate request_rows has a type with the same tests: this crate keeps its own, since it goes once the tables in place take over (docs/DECISIONS.md).
impl Phase {
    pub(crate) fn is_expired(self) -> bool
        ensures { result ≡ is_expired self }
    {
        matches!(self, Phase::Expired)
    }

    pub(crate) fn is_active(self) -> bool
        ensures { result ≡ is_active self }
    {
        matches!(self, Phase::Active(_))
    }

    pub(crate) fn is_untaken(self) -> bool
        ensures { result ≡ not_taken self }
    {
        matches!(self, Phase::Active(false))
    }
}

impl Request {
    pub(crate) fn in_phase(self, phase: Phase) -> Request
        ensures { result ≡ in_phase phase self }
    {
        Request { phase, ..self }
    }

    // How many bytes of data it has.
    pub(crate) fn size(&self) -> usize
        ensures { result ≡ length (data_of self.now) }
    {
        usize::from(self.len).min(64)
    }
}

impl Requests {
    pub(crate) fn live(&self) -> &[Request]
        ensures { result.now ≡ live self.now }
    {
        front(&self.rows, self.count)
    }

    // Where the first request of that name stands.
    pub(crate) fn place(&self, name: u64) -> Option<usize>
        ensures { result ≡ position (named name) (live self.now) }
    {
        self.live().iter().position(|q| q.name == name)
    }

    // The request at i goes, and those behind it move down.
    pub(crate) fn close(&mut self, i: usize)
        requires { i < length (live self.old) }
        ensures { self.new ≡ with_live self.old (cut_at i (live self.old)) }
    {
        let n = self.live().len();
        self.rows.copy_within(i + 1..n, i);
        self.count = n - 1;
    }
}
