// Ask ticks.
ghost use Rattle.std.specs.Prelude.{◌≡◌, []};
ghost use Rattle.model.specs.Interval as model;
ghost use Rattle.interval.specs.Stands.{Does};

use crate::Requests;

// The register.
pub fn ask(t: Requests) -> u32
    ensures exact { result ≡ t.register }
    ensures model { Does t t model.ask_ticks 0 result [] }
{
    t.register
}
