// The lane of a record: the part of the tables that it is for, or why it is for none. A run asks that part alone, and hands on no other.
ghost use Rattle.std.specs.Prelude.{◌≡◌, []};
ghost use Rattle.monitor.specs.Answers.{saying};
ghost use Rattle.monitor.specs.Lanes.{lane_of, for_requests, for_store, for_settings, word_of, heard_in, decides_in, finishes_in, action_of, verdict_of};

use crate::answers::{Said, plain};
use base::names::BLANK;
use frames::action::Action;
use handlers::Setting;
use records::{Part, Row};

// Why a record is for no part.
#[derive(Clone, Copy)]
pub enum Refusal {
    Malformed,
    Stranger,
    Wrong, // "any other issuer gets 10"
}

// What the handlers come to, and whether the task is removed. Both mean something: a finish ends without an abend.
#[derive(Clone, Copy)]
pub struct Verdict {
    pub action: Action,
    pub ends: bool,
}

// `may`: whether the issuer is the system or an active task.
#[tactic(auto, using(records::specs::Laws::shaped_row, records::specs::Laws::kind_of), unfolding(crate::specs::Lanes::lane_of))]
pub fn lane_of(rec: &[u8], issuer: u64, may: bool) -> Result<Part, Refusal>
    ensures exact { result ≡ lane_of may issuer rec.now }
{
    let Row(size, kind, part) = records::row_of(records::command(rec));
    if !records::shaped(size, rec) {
        return Err(Refusal::Malformed);
    }
    if !may {
        return Err(Refusal::Stranger);
    }
    if records::shut_to(kind, issuer == BLANK) {
        return Err(Refusal::Wrong);
    }
    Ok(part)
}

// Whether interval control is asked. One test each, as the run asks three in turn (docs/SPEED.md).
pub fn for_requests(lane: Result<Part, Refusal>) -> bool
    ensures exact { result ≡ for_requests lane }
{
    matches!(lane, Ok(Part::Interval))
}

// Whether temporary storage is asked.
pub fn for_store(lane: Result<Part, Refusal>) -> bool
    ensures exact { result ≡ for_store lane }
{
    matches!(lane, Ok(Part::Queues))
}

// Whether the settings are asked.
pub fn for_settings(lane: Result<Part, Refusal>) -> bool
    ensures exact { result ≡ for_settings lane }
{
    matches!(lane, Ok(Part::Settings))
}

// What is said where no part is asked.
pub fn word_of(lane: Result<Part, Refusal>) -> Said
    ensures exact { result ≡ saying (word_of lane) 0 [] }
{
    let condition = match lane {
        Err(Refusal::Malformed) => 33,
        Err(Refusal::Stranger) => 34,
        Err(Refusal::Wrong) => 10,
        Ok(_) => 0,
    };
    plain(condition, 0)
}

// 33 and 34 are no conditions of a task.
fn heard(lane: Result<Part, Refusal>) -> bool
    ensures { result ≡ heard_in lane }
{
    matches!(lane, Ok(_) | Err(Refusal::Wrong))
}

// "When condition c of 1..10 arises for a task: setting c decides .. For the system the action is always 0."
pub fn decides(lane: Result<Part, Refusal>, condition: u8, issuer: u64) -> bool
    ensures exact { result ≡ decides_in lane condition issuer }
{
    condition != 0 && issuer != BLANK && heard(lane)
}

fn finishes(lane: Result<Part, Refusal>) -> bool
    ensures { result ≡ finishes_in lane }
{
    matches!(lane, Ok(Part::Finish))
}

// "setting c decides; if unset, setting 0"; unset is the abend.
pub(crate) fn action_of(by: Setting) -> Action
    ensures { result ≡ action_of by }
{
    match by {
        Setting::Unset => Action::Abend,
        Setting::Ignore => Action::GoOn,
        Setting::Label(label) => Action::GoTo(label),
    }
}

// "Finish removes the task"; "Abend removes the task as finish does, besides anything the command itself did."
pub fn judge(lane: Result<Part, Refusal>, by: Setting) -> Verdict
    ensures exact { result ≡ verdict_of lane by }
{
    let action = action_of(by);
    let abends = matches!(action, Action::Abend);
    Verdict {
        action,
        ends: abends || finishes(lane),
    }
}
