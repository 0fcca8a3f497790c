// One record to its answer, over lent tables: the answer goes to the front of a lent buffer.
ghost use Rattle.std.specs.Prelude.{◌≡◌, ◌≤◌, length};
ghost use Rattle.records.specs.Rows.{who_of};
ghost use Rattle.turn_rules.specs.Tables.{Tables};
ghost use Rattle.turn_rules.specs.Lent.{held, SameLoans};
ghost use Rattle.turn_rules.specs.Turn.{sender_in, settled_of, obeyed_in, refused_in, left, turned, turned_in};

use crate::obey::{Heard, obey};
use crate::settle::settle;
use base::names::BLANK;
use frames::writing::put_head;
use turn_rules::Lent;

// "34 issuer neither blank nor an active task": its row, looked for once. A blank issuer is the system, which has none and needs none: 0
// stands for it, and its commands read no row of their own.
#[tactic(auto, unfolding(turn_rules::specs::Turn::sender_in))]
fn sender(t: &Lent, issuer: u64) -> Option<usize>
    ensures { result ≡ sender_in (held t.now).requests issuer }
{
    if issuer == BLANK {
        return Some(0);
    }
    request_ops::tasks::task_at(t.requests, issuer)
}

// 33 and 34 "pass by the handlers, have action 0, number 0 and no bytes, and change nothing".
fn refuse(out: &mut [u8], condition: u8) -> usize
    requires { 74 ≤ length out.old }
    ensures exact { (t : Tables) → left result t out.new ≡ turned (refused_in t condition) out.old }
    ensures short { result ≤ 74 }
{
    put_head(out, condition, 0, 0, 0, 0);
    10
}

// A record that is heard: the command lays its bytes where they go in the answer, the handlers decide, and the head is written last.
fn hear(t: &mut Lent, rec: &[u8], heard: Heard, out: &mut [u8]) -> usize
    requires { 74 ≤ length out.old }
    ensures exact { left result (held t.new) out.new ≡ turned (settled_of heard.issuer (obeyed_in (who_of heard.kind) heard.part heard.issuer heard.at (held t.old) rec.now)) out.old }
    ensures short { result ≤ 74 }
    ensures loans { SameLoans t.new t.old }
{
    let said = obey(t, rec, heard, &mut out[10..]);
    let condition = u8::from(said.condition);
    let action = settle(t.requests, t.settings, heard.issuer, condition);
    put_head(
        out,
        condition,
        u8::from(action),
        action.label(),
        said.number,
        said.len,
    );
    10 + said.len
}

// One record: how many bytes its answer took. Where the buffer has fewer than 74 bytes nothing is heard, and nothing changes: 0 is then the
// number of bytes that were written.
pub fn turn(t: &mut Lent, rec: &[u8], out: &mut [u8]) -> usize
    ensures exact { left result (held t.new) out.new ≡ turned_in (held t.old) rec.now out.old }
    ensures short { result ≤ 74 }
    ensures loans { SameLoans t.new t.old }
{
    if out.len() < 74 {
        return 0;
    }
    let row = records::row_of(records::command(rec));
    let size = row.0;
    if !records::shaped(size, rec) {
        return refuse(out, 33);
    }
    let issuer = records::issuer(rec);
    let kind = row.1;
    let part = row.2;
    let Some(at) = sender(t, issuer) else {
        return refuse(out, 34);
    };
    let heard = Heard {
        kind,
        part,
        issuer,
        at,
    };
    hear(t, rec, heard, out)
}
