// Interval control: programs, terminals, the tick register, and the requests in their phases.
// The older form of request_rows, request_ops, advance, names and request_sound, which takes and gives its table by value; it goes when the
// tables in place take over (docs/DECISIONS.md).
#![tactic(auto)]

// "Each request is in one phase: waiting with its due tick, expired, or active (data taken or not)."
#[derive(Clone, Copy)]
pub enum Phase {
    Waiting(u32),
    Expired,
    Active(bool),
}

// A request, and the first `len` of its bytes are its data.
#[derive(Clone, Copy)]
pub struct Request {
    pub name: u64,
    pub program: u32,
    pub terminal: u32,
    pub phase: Phase,
    pub len: u8,
    pub bytes: [u8; 64],
}

// Rows 0..count are the requests: of those that wait the order is the order of acceptance, and of the expired it is the line.
// Places past a count keep what they held and mean nothing. The arrays with a count beside are the tables' layout, of which every value gets a reply.
#[derive(Clone, Copy)]
pub struct Requests {
    pub register: u32,
    pub pcount: usize,
    pub programs: [u32; 16],
    pub tcount: usize,
    pub terminals: [u32; 8],
    pub count: usize,
    pub rows: [Request; 32],
}

pub mod active;
pub mod advance;
pub mod answers;
pub mod ask;
pub mod cancel;
pub mod define;
pub mod dispatch;
pub mod fresh;
pub mod remove;
pub mod retrieve;
mod rows;
pub mod sound;
pub mod start;
