// "fresh, empty tables for any register value"
ghost use Rattle.std.specs.Prelude.{◌≡◌, List, ℕ};
ghost use Rattle.monitor.specs.Table.{tables, fresh_parts, fresh_tables, Fresh};

use crate::{Parts, Tables};

// Without the bytes of the items, for whoever keeps these beside the parts.
pub fn fresh_parts(register: u32) -> Parts
    ensures exact { result ≡ fresh_parts register }
    ensures model { (b : List ℕ) → Fresh register (tables result b) }
{
    Parts {
        requests: interval::fresh::fresh(register),
        queues: queues::fresh::fresh(),
        tasks: handlers::fresh::fresh(),
    }
}

pub fn fresh(register: u32) -> Tables
    ensures exact { result ≡ fresh_tables register }
    ensures model { Fresh register result }
{
    Tables {
        parts: fresh_parts(register),
        items: [0u8; 8192],
    }
}
