// What the handlers make of a command's condition: action, label, and the abend.
ghost use Rattle.std.specs.Prelude.{◌≡◌};
ghost use Rattle.monitor.specs.Step.{decided_as, settle_as};

use crate::Parts;
use crate::answers::{Answer, Said, answered};
use crate::lanes::action_of;
use crate::obey::{Obeyed, without};
use base::names::BLANK;
use frames::action::Action;
use handlers::Setting;

// The parts after the record, and its answer. Specs name the fields.
#[derive(Clone, Copy)]
pub struct Turned {
    pub parts: Parts,
    pub answer: Answer,
}

// "Handling and ignoring change no other table. .. Abend removes the task as finish does, besides anything the command itself did."
fn decided(p: Parts, s: Said, task: u64, by: Setting) -> Turned
    ensures { result ≡ decided_as p s task by }
{
    let action = action_of(by);
    let answer = answered(s, u8::from(action), action.label());
    match action {
        Action::Abend => Turned {
            parts: without(p, task),
            answer,
        },
        _ => Turned { parts: p, answer },
    }
}

// "When condition c of 1..10 arises for a task: setting c decides .. For the system the action is always 0."
#[tactic(auto, unfolding(crate::specs::Step::settle_as))]
pub(crate) fn settle(o: Obeyed, issuer: u64) -> Turned
    ensures { result ≡ settle_as o issuer }
{
    let p = o.parts;
    let s = o.said;
    if s.condition == 0 || issuer == BLANK {
        return decided(p, s, issuer, Setting::Ignore);
    }
    let by = handlers::decide::decide(p.tasks, issuer, s.condition);
    decided(p, s, issuer, by)
}
