// The command of a record that is well formed and from one who may send it: the part that it is for is asked.
ghost use Rattle.std.specs.Prelude.{◌≡◌};
ghost use Rattle.monitor.specs.Table.{tables, without_in};
ghost use Rattle.monitor.specs.Step.{lent, obeys, obeyed_in};

use crate::answers::{Said, plain};
use crate::{Parts, requests, settings, store};

// The parts after the command, and what it says. Specs name the fields.
#[derive(Clone, Copy)]
pub struct Obeyed {
    pub parts: Parts,
    pub said: Said,
}

// "Finish removes the task, its settings and its data."
pub(crate) fn without(p: Parts, task: u64) -> Parts
    ensures { result ≡ without_in p task }
{
    let mut u = p;
    u.requests = interval::remove::remove(p.requests, task);
    u.tasks = handlers::forget::forget(p.tasks, task);
    u
}

// "any other issuer gets 10, before every condition in the row"
//
// By the number of the command, also of one that is none, for which `deed` of specs/Step.antt names a part as well; the row's part would not.
#[tactic(auto, unfolding(crate::specs::Step::obeyed_in, crate::specs::Step::deed))]
pub(crate) fn obey(p: Parts, items: &mut [u8; 8192], rec: &[u8]) -> Obeyed
    ensures { lent result items.new ≡ obeys (obeyed_in (tables p items.old) rec.now) }
{
    let command = records::command(rec);
    let issuer = records::issuer(rec);
    let mut u = p;
    if records::wrong_kind(command, issuer) {
        return Obeyed {
            parts: u,
            said: plain(10, 0),
        };
    }
    if command <= 8 {
        let a = requests::ask(p.requests, command, rec);
        u.requests = a.requests;
        return Obeyed {
            parts: u,
            said: a.said,
        };
    }
    if command == 9 {
        return Obeyed {
            parts: without(p, issuer),
            said: plain(0, 0),
        };
    }
    if command <= 14 {
        let s = store::ask(p.queues, items, command, rec);
        u.queues = s.queues;
        return Obeyed {
            parts: u,
            said: s.said,
        };
    }
    let m = settings::ask(p.tasks, command, rec);
    u.tasks = m.tasks;
    Obeyed {
        parts: u,
        said: m.said,
    }
}
