// One record (without its length field) and a set of tables in; the answer and the tables after it out.
ghost use Rattle.std.specs.Prelude.{◌≡◌};
ghost use Rattle.monitor.specs.Table.{tables};
ghost use Rattle.monitor.specs.Monitor.{Replies};
ghost use Rattle.monitor.specs.Step.{lent, allowed_in, refused_in, step_on, step_in, turned, whole};

use crate::answers::{Answer, answered, plain};
use crate::obey::obey;
use crate::settle::{Turned, settle};
use crate::sound::sound;
use crate::{Parts, Tables};
use base::names::BLANK;

// The tables after the record, and its answer. Specs name the fields.
#[derive(Clone, Copy)]
pub struct Stepped {
    pub tables: Tables,
    pub answer: Answer,
}

// "34 issuer neither blank nor an active task"
fn allowed(p: Parts, rec: &[u8]) -> bool
    ensures { result ≡ allowed_in p rec.now }
{
    let issuer = records::issuer(rec);
    issuer == BLANK || interval::active::is_active(p.requests, issuer)
}

// Without the test of soundness, for whoever knows that the tables are sound; the bytes of the items are lent.
#[tactic(auto, unfolding(crate::specs::Step::step_on))]
pub fn step_on(p: Parts, items: &mut [u8; 8192], rec: &[u8]) -> Turned
    ensures exact { lent result items.new ≡ turned (step_on (tables p items.old) rec.now) }
{
    if !records::formed(rec) {
        return Turned {
            parts: p,
            answer: answered(plain(33, 0), 0, 0),
        };
    }
    if !allowed(p, rec) {
        return Turned {
            parts: p,
            answer: answered(plain(34, 0), 0, 0),
        };
    }
    let o = obey(p, items, rec);
    settle(o, records::issuer(rec))
}

// From any tables: "Tables are refused with 32 exactly if they break a rule".
pub fn step(t: Tables, rec: &[u8]) -> Stepped
    ensures exact { result ≡ whole (step_in t rec.now) }
    ensures monitor { Replies t rec.now result }
{
    let p = t.parts;
    if !sound(p) {
        return Stepped {
            tables: t,
            answer: answered(plain(32, 0), 0, 0),
        };
    }
    let mut b = t.items;
    let s = step_on(p, &mut b, rec);
    Stepped {
        tables: Tables {
            parts: s.parts,
            items: b,
        },
        answer: s.answer,
    }
}
