// A command that its issuer may send: its bytes go to the front of the body.
ghost use Rattle.std.specs.Prelude.{◌≡◌, List, ℕ};
ghost use Rattle.words.specs.Said.{gave, handed};
ghost use Rattle.records.specs.Rows.{who_of};
ghost use Rattle.turn_rules.specs.Tables.{known_of};
ghost use Rattle.turn_rules.specs.Lent.{held, SameLoans};
ghost use Rattle.turn_rules.specs.Turn.{finish_in, obeyed_in};

use crate::ask::{ask_interval, ask_queues, ask_settings};
use base::names::BLANK;
use records::{Kind, Part};
use turn_rules::Lent;
use words::said::{Condition, Said};

// What is known of a record that is heard: two columns of its command's row, who sends it, and where his own row stands.
#[derive(Clone, Copy)]
pub(crate) struct Heard {
    pub kind: Kind,
    pub part: Part,
    pub issuer: u64,
    pub at: usize,
}

// "Finish removes the task, its settings and its data." Its row is known, and its data are where the row says.
#[tactic(auto, unfolding(turn_rules::specs::Turn::finish_in))]
fn finish(requests: &mut [u64], settings: &mut [u64], at: usize, issuer: u64) -> Said
    ensures exact { (b : List ℕ) → gave result (known_of requests.new settings.new) b ≡ handed (finish_in (known_of requests.old settings.old) at issuer) b }
{
    request_ops::remove::remove_at(requests, at);
    settings::forget::forget(settings, issuer);
    Said::plain(Condition::Normal, 0)
}

// By the columns of its row. "Any other issuer gets 10, before every condition in the row."
#[tactic(auto, using(records::specs::Laws::kind_of), unfolding(turn_rules::specs::Turn::obeyed_in, turn_rules::specs::Turn::deed))]
pub(crate) fn obey(t: &mut Lent, rec: &[u8], heard: Heard, body: &mut [u8]) -> Said
    ensures exact { gave result (held t.new) body.new ≡ handed (obeyed_in (who_of heard.kind) heard.part heard.issuer heard.at (held t.old) rec.now) body.old }
    ensures loans { SameLoans t.new t.old }
{
    let issuer = heard.issuer;
    if records::shut_to(heard.kind, issuer == BLANK) {
        return Said::plain(Condition::InvalidRequest, 0);
    }
    let command = records::command(rec);
    match heard.part {
        Part::Interval => ask_interval(
            t.programs,
            t.terminals,
            t.requests,
            t.area,
            command,
            rec,
            heard.at,
            body,
        ),
        Part::Finish => finish(t.requests, t.settings, heard.at, issuer),
        Part::Queues => ask_queues(t.queues, t.items, command, rec, body),
        Part::Settings => ask_settings(t.settings, command, rec, issuer, body),
    }
}
