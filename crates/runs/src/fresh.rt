// "A list runs from fresh, empty tables whose register holds the start value."
ghost use Rattle.std.specs.Prelude.{◌≡◌, List, ℕ};
ghost use Rattle.turn_rules.specs.Lent.{held, SameLoans};
ghost use Rattle.turn_rules.specs.Tables.{tables_of};
ghost use Rattle.turn_rules.specs.Standing.{fresh_of};

use turn_rules::Lent;

// The bytes of data and of items stay: none is read before it is written.
#[tactic(auto, unfolding(turn_rules::specs::Standing::fresh_of))]
pub fn fresh(
    programs: &mut [u64],
    terminals: &mut [u64],
    requests: &mut [u64],
    queues: &mut [u64],
    items: &[u8],
    settings: &mut [u64],
    register: u32,
)
    ensures exact { (area : List ℕ) → (tables_of programs.new terminals.new requests.new area queues.new items.now settings.new) ≡ fresh_of (tables_of programs.old terminals.old requests.old area queues.old items.now settings.old) register }
{
    names::fresh(programs);
    names::fresh(terminals);
    request_ops::fresh::fresh(requests, register);
    queue_ops::fresh::fresh(queues, items);
    settings::fresh::fresh(settings);
}

// The same of tables that are lent as one.
pub(crate) fn renew(t: &mut Lent, register: u32)
    ensures exact { held t.new ≡ fresh_of (held t.old) register }
    ensures loans { SameLoans t.new t.old }
{
    let programs = &mut *t.programs;
    let terminals = &mut *t.terminals;
    let requests = &mut *t.requests;
    let queues = &mut *t.queues;
    let items = &mut *t.items;
    let settings = &mut *t.settings;
    fresh(
        programs, terminals, requests, queues, items, settings, register,
    );
}
