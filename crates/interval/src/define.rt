// Define program, define terminal.
ghost use Rattle.std.specs.Prelude.{◌≡◌, [], length, take, is_ok};
ghost use Rattle.base.specs.Choice.{pick};
ghost use Rattle.base.specs.Lists.{over};
ghost use Rattle.model.specs.Limits.{cabinet};
ghost use Rattle.model.specs.Interval as model;
ghost use Rattle.interval.specs.Stands.{Does};
ghost use Rattle.interval.specs.Define.{ruling, behind, define_program, define_terminal, define_gives};

use crate::Requests;
use crate::answers::{DefineError, Defined};
use base::names::NONE;
use base::sets::has;

// A new name comes behind the first `count`, where it can.
fn enter(names: &mut [u32], count: &mut usize, name: u32) -> Result<(), DefineError>
    ensures outcome { result ≡ ruling (length names.old) (take count.old names.old) name }
    ensures names { names.new ≡ pick (is_ok result) (over (behind count.old names.old name) names.old) names.old }
    ensures count { count.new ≡ pick (is_ok result) (length (behind count.old names.old name)) count.old }
{
    if name == NONE {
        return Err(DefineError::Invalid);
    }
    if has(names, *count, &name) {
        return Err(DefineError::NotUnique);
    }
    if *count >= names.len() {
        return Err(DefineError::NoSpace);
    }
    names[*count] = name;
    *count += 1;
    Ok(())
}

pub fn define_program(mut t: Requests, name: u32) -> Defined
    ensures exact { result ≡ define_program t name }
    ensures model { Does t result.requests (λ i. model.define_program cabinet i name) (define_gives result.outcome) 0 [] }
{
    let outcome = enter(&mut t.programs, &mut t.pcount, name);
    Defined {
        requests: t,
        outcome,
    }
}

pub fn define_terminal(mut t: Requests, name: u32) -> Defined
    ensures exact { result ≡ define_terminal t name }
    ensures model { Does t result.requests (λ i. model.define_terminal cabinet i name) (define_gives result.outcome) 0 [] }
{
    let outcome = enter(&mut t.terminals, &mut t.tcount, name);
    Defined {
        requests: t,
        outcome,
    }
}
