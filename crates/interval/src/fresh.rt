// Tables with no program, no terminal and no request.
ghost use Rattle.std.specs.Prelude.{◌≡◌};
ghost use Rattle.interval.specs.Rows.{no_row};
ghost use Rattle.interval.specs.Fresh.{fresh_at, Fresh};

use crate::{Phase, Request, Requests};

// A row that holds no request.
pub(crate) fn no_row() -> Request
    ensures { result ≡ no_row }
{
    Request {
        name: 0,
        program: 0,
        terminal: 0,
        phase: Phase::Expired,
        len: 0,
        bytes: [0u8; 64],
    }
}

pub fn fresh(register: u32) -> Requests
    ensures exact { result ≡ fresh_at register }
    ensures model { Fresh register result }
{
    let q = no_row();
    let rows = [q; 32];
    Requests {
        register,
        pcount: 0,
        programs: [0u32; 16],
        tcount: 0,
        terminals: [0u32; 8],
        count: 0,
        rows,
    }
}
