// "A list runs from fresh, empty tables whose register holds the start value. It is framed whole before anything runs."
ghost use Rattle.std.specs.Prelude.{◌≡◌, ◌||◌, eqb};
ghost use Rattle.base.specs.Bytes.{blank};
ghost use Rattle.model.specs.Lists.{framed, answered, encoded, run};
ghost use Rattle.model.specs.Limits.{cabinet};
ghost use Rattle.interval.specs.Active.{active_in};
ghost use Rattle.monitor.specs.Table.{fresh_tables};
ghost use Rattle.frames.specs.Reading.{records_from};
ghost use Rattle.frames.specs.Writing.{written, written_over};
ghost use Rattle.lists.specs.Run.{answers_on, run_on, ran, Fitting, reply};
ghost use Rattle.lists.specs.Laws.Answers.{held};

use crate::fresh::{fresh_requests, fresh_tasks};
use base::names::BLANK;
use frames::framing::{Framed, frame};
use frames::reading::{Part, part_at};
use frames::refused::Refused;
use frames::writing::write_answer;
use handlers::Setting;
use handlers::decide::decide;
use handlers::forget::forget;
use interval::Requests;
use interval::remove::remove;
use monitor::answers::{Answer, answered, plain};
use monitor::lanes::{decides, for_requests, for_settings, for_store, judge, lane_of, word_of};

// "The list entry returns 0, 35 or 36 and the number of bytes written." "A refused list runs nothing and writes nothing."
pub fn run(list: &[u8], out: &mut [u8]) -> Result<usize, Refused>
    ensures exact { ran result out.new ≡ run_on (framed list.now) out.old }
    ensures model { ran result out.new ≡ run cabinet list.now out.old }
{
    let Some(Framed { records, start }) = frame(list) else {
        return Err(Refused::NotFramed);
    };
    if out.len() / 74 < records {
        return Err(Refused::NoRoom);
    }
    Ok(run_records(list, out, start))
}

// An answer at the front of a buffer: how many bytes it took.
fn write(out: &mut [u8], a: Answer) -> usize
    ensures { written result out.new ≡ written_over (encoded (held a)) out.old }
{
    let bytes = a.bytes;
    write_answer(out, a.condition, a.action, a.label, a.number, &bytes, a.len)
}

// "34 issuer neither blank nor an active task": who may send a record. The requests are lent, so that none is copied.
fn may_send(requests: &Requests, issuer: u64) -> bool
    ensures { result ≡ (eqb issuer (blank 8) || active_in requests.now issuer) }
{
    issuer == BLANK || requests.has_task(issuer)
}

// The records of a framed list, where the buffer has 74 bytes for each: how many bytes their answers took.
// "Each answer goes into the lent buffer behind the one before it."
//
// A call copies each struct that it takes and gives. So the parts are locals of this function, which calls each command from an arm of its own:
// a function between would copy a part once or twice more for every record, and `bench/run` then misses its bar (docs/SPEED.md).
fn run_records(list: &[u8], out: &mut [u8], register: u32) -> usize
    requires { Fitting list.now out.old }
    ensures { reply 0 result out.new ≡ answered (answers_on (fresh_tables register) (records_from list.now 9)) out.old }
{
    let mut requests = fresh_requests(register);
    let mut queues = queues::fresh::fresh();
    let mut tasks = fresh_tasks(register);
    let mut items = [0u8; 8192];
    let mut at: usize = 9;
    let mut written: usize = 0;
    while let Part::Record { start, next } = part_at(list, at) {
        let rec = &list[start..next];

        let issuer = records::issuer(rec);
        let may = may_send(&requests, issuer);

        // the part that it is for: three tests in turn, since one match of lanes has 18 ways into one join, whose proof the step limit cut off (docs/SPEED.md)
        let lane = lane_of(rec, issuer, may);
        let command = records::command(rec);
        let mut said = word_of(lane);
        if for_requests(lane) {
            match command {
                1 => {
                    let a = monitor::requests::define_program(requests, rec);
                    said = a.said;
                    requests = a.requests;
                }
                2 => {
                    let a = monitor::requests::define_terminal(requests, rec);
                    said = a.said;
                    requests = a.requests;
                }
                3 => {
                    let a = monitor::requests::advance(requests, rec);
                    said = a.said;
                    requests = a.requests;
                }
                4 => {
                    said = plain(0, requests.register);
                }
                5 => {
                    let a = monitor::requests::dispatch(requests);
                    said = a.said;
                    requests = a.requests;
                }
                6 => {
                    let a = monitor::requests::start(requests, rec);
                    said = a.said;
                    requests = a.requests;
                }
                7 => {
                    let a = monitor::requests::cancel(requests, rec);
                    said = a.said;
                    requests = a.requests;
                }
                _ => {
                    let a = monitor::requests::retrieve(requests, rec);
                    said = a.said;
                    requests = a.requests;
                }
            }
        }
        if for_store(lane) {
            match command {
                10 => {
                    let a = monitor::store::append(queues, &mut items, rec);
                    said = a.said;
                    queues = a.queues;
                }
                11 => {
                    let a = monitor::store::read_next(queues, &items, rec);
                    said = a.said;
                    queues = a.queues;
                }
                12 => {
                    let a = monitor::store::read_at(queues, &items, rec);
                    said = a.said;
                    queues = a.queues;
                }
                13 => {
                    let a = monitor::store::rewrite(queues, &mut items, rec);
                    said = a.said;
                    queues = a.queues;
                }
                _ => {
                    let a = monitor::store::delete(queues, rec);
                    said = a.said;
                    queues = a.queues;
                }
            }
        }
        if for_settings(lane) {
            let a = monitor::settings::ask(tasks, command, rec);
            said = a.said;
            tasks = a.tasks;
        }

        // what the task's settings decide
        let mut by = Setting::Ignore;
        if decides(lane, said.condition, issuer) {
            by = decide(tasks, issuer, said.condition);
        }
        let v = judge(lane, by);
        if v.ends {
            requests = remove(requests, issuer);
            tasks = forget(tasks, issuer);
        }

        // the answer
        let a = answered(said, u8::from(v.action), v.action.label());
        let n = write(&mut out[written..], a);
        written += n;
        at = next;
    }
    written
}
