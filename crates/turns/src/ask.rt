// The commands by their numbers, each part's by a function of its own: an arm reads the operands and asks the part. A part is lent its own slices
// alone, so that the signature says which tables stay as they are.
ghost use Rattle.std.specs.Prelude.{◌≡◌};
ghost use Rattle.words.specs.Said.{gave, handed};
ghost use Rattle.turn_rules.specs.Tables.{interval_of, store_of, settings_of};
ghost use Rattle.turn_rules.specs.Ask.{ask_interval, ask_queues, ask_settings};

use records::{name_at, number1_at, number2_at, number4_at, place_at, rest_at, room_at};
use request_ops::start::Asked;
use words::said::Said;

// 1 to 8. The task that asks stands in row `at`.
#[tactic(auto, unfolding(turn_rules::specs::Ask::ask_interval))]
pub(crate) fn ask_interval(
    programs: &mut [u64],
    terminals: &mut [u64],
    requests: &mut [u64],
    area: &mut [u8],
    command: u8,
    rec: &[u8],
    at: usize,
    body: &mut [u8],
) -> Said
    ensures exact { gave result (interval_of programs.new terminals.new requests.new area.new) body.new ≡ handed (ask_interval command at (interval_of programs.old terminals.old requests.old area.old) rec.now) body.old }
{
    match command {
        1 => names::define(programs, number4_at(rec, 9)),
        2 => names::define(terminals, number4_at(rec, 9)),
        3 => advance::advance(requests, number4_at(rec, 9)),
        4 => request_ops::ask::ask(requests),
        5 => request_ops::dispatch::dispatch(requests, body),
        6 => {
            let asked = Asked {
                name: name_at(rec, 9),
                program: number4_at(rec, 17),
                terminal: number4_at(rec, 21),
                interval: number4_at(rec, 25),
                bytes: rest_at(rec, 29),
            };
            request_ops::start::start(programs, terminals, requests, area, &asked)
        }
        7 => request_ops::cancel::cancel(requests, name_at(rec, 9)),
        _ => request_ops::retrieve::retrieve(requests, area, at, room_at(rec, 9), body),
    }
}

// 10 to 14.
#[tactic(auto, unfolding(turn_rules::specs::Ask::ask_queues))]
pub(crate) fn ask_queues(
    queues: &mut [u64],
    items: &mut [u8],
    command: u8,
    rec: &[u8],
    body: &mut [u8],
) -> Said
    ensures exact { gave result (store_of queues.new items.new) body.new ≡ handed (ask_queues command (store_of queues.old items.old) rec.now) body.old }
{
    match command {
        10 => queue_ops::append::append(
            queues,
            items,
            slots::ALL,
            name_at(rec, 9),
            rest_at(rec, 17),
        ),
        11 => queue_ops::read::read_next(queues, items, name_at(rec, 9), room_at(rec, 17), body),
        12 => queue_ops::read::read_at(
            queues,
            items,
            name_at(rec, 9),
            place_at(rec, 17),
            room_at(rec, 19),
            body,
        ),
        13 => queue_ops::rewrite::rewrite(
            queues,
            items,
            name_at(rec, 9),
            place_at(rec, 17),
            rest_at(rec, 19),
        ),
        _ => queue_ops::delete::delete(queues, items, name_at(rec, 9)),
    }
}

// 15 to 17. No bytes are given, and the body is as it was.
#[tactic(auto, unfolding(turn_rules::specs::Ask::ask_settings))]
pub(crate) fn ask_settings(
    settings: &mut [u64],
    command: u8,
    rec: &[u8],
    issuer: u64,
    body: &mut [u8],
) -> Said
    ensures exact { gave result (settings_of settings.new) body.new ≡ handed (ask_settings command issuer (settings_of settings.old) rec.now) body.old }
{
    match command {
        15 => settings::set::handle(settings, issuer, number1_at(rec, 9), number2_at(rec, 10)),
        16 => settings::set::ignore(settings, issuer, number1_at(rec, 9)),
        _ => settings::set::reset(settings, issuer, number1_at(rec, 9)),
    }
}
