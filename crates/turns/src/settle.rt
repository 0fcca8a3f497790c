// What the handlers make of a condition.
ghost use Rattle.std.specs.Prelude.{◌≡◌};
ghost use Rattle.turn_rules.specs.Tables.{known_of};
ghost use Rattle.turn_rules.specs.Turn.{settled, settle_in};

use base::names::BLANK;
use frames::action::Action;
use settings::Setting;

// "Abend removes the task as finish does, besides anything the command itself did."
#[tactic(auto, unfolding(turn_rules::specs::Turn::settle_in))]
pub(crate) fn settle(
    requests: &mut [u64],
    settings: &mut [u64],
    issuer: u64,
    condition: u8,
) -> Action
    ensures exact { settled result (known_of requests.new settings.new) ≡ settle_in (known_of requests.old settings.old) issuer condition }
{
    if condition == 0 || issuer == BLANK {
        return Action::GoOn;
    }
    match settings::decide::decide(settings, issuer, condition) {
        Setting::Unset => {
            request_ops::remove::remove(requests, issuer);
            settings::forget::forget(settings, issuer);
            Action::Abend
        }
        Setting::Ignore => Action::GoOn,
        Setting::Label(label) => Action::GoTo(label),
    }
}
