// A list of records to their answers: it is framed whole before anything runs.
ghost use Rattle.std.specs.Prelude.{◌≡◌};
ghost use Rattle.model.specs.Lists.{framed};
ghost use Rattle.frames.specs.Reading.{records_from};
ghost use Rattle.turn_rules.specs.Lent.{held, SameLoans};
ghost use Rattle.turn_rules.specs.Tables.{tables_of};
ghost use Rattle.turn_rules.specs.Turn.{left};
ghost use Rattle.runs.specs.Run.{Fitting, run_of, ended, run_in};

use crate::fresh::renew;
use frames::framing::{Framed, frame};
use frames::reading::{Part, part_at};
use frames::refused::Refused;
use turn_rules::Lent;
use turns::turn::turn;

// The records of a framed list: "Each answer goes into the lent buffer behind the one before it".
fn run(t: &mut Lent, list: &[u8], out: &mut [u8]) -> usize
    requires { Fitting list.now out.old }
    ensures exact { left result (held t.new) out.new ≡ run_of (held t.old) (records_from list.now 9) out.old }
    ensures loans { SameLoans t.new t.old }
{
    let mut at: usize = 9;
    let mut written: usize = 0;
    while let Part::Record { start, next } = part_at(list, at) {
        written += turn(t, &list[start..next], &mut out[written..]);
        at = next;
    }
    written
}

// "A refused list runs nothing and writes nothing."
fn run_over(t: &mut Lent, list: &[u8], out: &mut [u8]) -> Result<usize, Refused>
    ensures exact { ended result (held t.new) out.new ≡ run_in (framed list.now) (held t.old) out.old }
    ensures loans { SameLoans t.new t.old }
{
    let Some(Framed { records, start }) = frame(list) else {
        return Err(Refused::NotFramed);
    };
    if out.len() / 74 < records {
        return Err(Refused::NoRoom);
    }
    renew(t, start);
    Ok(run(t, list, out))
}

// "The list entry returns 0, 35 or 36 and the number of bytes written." What the tables held is gone, unless the list is refused.
pub fn run_on(
    list: &[u8],
    out: &mut [u8],
    programs: &mut [u64],
    terminals: &mut [u64],
    requests: &mut [u64],
    area: &mut [u8],
    queues: &mut [u64],
    items: &mut [u8],
    settings: &mut [u64],
) -> Result<usize, Refused>
    ensures exact { ended result (tables_of programs.new terminals.new requests.new area.new queues.new items.new settings.new) out.new ≡ run_in (framed list.now) (tables_of programs.old terminals.old requests.old area.old queues.old items.old settings.old) out.old }
{
    let mut t = Lent {
        programs,
        terminals,
        requests,
        area,
        queues,
        items,
        settings,
    };
    run_over(&mut t, list, out)
}
