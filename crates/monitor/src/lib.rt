// The monitor: one record in, answer and tables out. Its tables are the three parts, and the bytes of the items beside them.
// The older form of turns and runs, whose tables go from call to call by value; it goes when the tables in place take over (docs/DECISIONS.md).
#![tactic(auto)]

use handlers::Tasks;
use interval::Requests;
use queues::Queues;

#[derive(Clone, Copy)]
pub struct Parts {
    pub requests: Requests,
    pub queues: Queues,
    pub tasks: Tasks,
}

// 64 bytes of the items belong to a slot. They lie beside the parts, so that a run lends them and copies none.
#[derive(Clone, Copy)]
pub struct Tables {
    pub parts: Parts,
    pub items: [u8; 8192],
}

pub mod answers;
pub mod fresh;
pub mod lanes;
pub mod obey;
pub mod requests;
pub mod settings;
pub mod settle;
pub mod sound;
pub mod step;
pub mod store;
