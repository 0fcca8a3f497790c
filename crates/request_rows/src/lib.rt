// Requests in lent words: the register, how many there are, then rows of four words. A request is what the code speaks of: a row is read into one and
// stored from one.
#![tactic(auto)]

ghost use Rattle.std.specs.Prelude.{◌≡◌, [], ◌∷◌, length, map, get_or};
ghost use Rattle.request_rows.specs.Rows.{is_expired, is_active, not_taken, phase_of, phase_word, row_of, words_of, decode, encode, in_phase, no_row};
ghost use Rattle.request_rows.specs.Table.{view_of, register_of, live, with_row};

use base::sets::front;
use words::cells::word_at;

// Where the register stands, and how many requests there are.
pub const REGISTER: usize = 0;

pub const COUNT: usize = 1;

// The words before the rows, and the words of a row.
pub const HEAD: usize = 2;

pub const WIDTH: usize = 4;

// The bytes of a slot.
pub const SLOT: usize = 64;

// A number of 4 bytes is below this: a word holds two such numbers, and its low half is one.
const HALF: u64 = 4_294_967_296;

// "Each request is in one phase: waiting with its due tick, expired, or active (data taken or not)."
#[derive(Clone, Copy)]
pub enum Phase {
    Waiting(u32),
    Expired,
    Active(bool),
}

impl Phase {
    pub fn is_expired(self) -> bool
        ensures exact { result ≡ is_expired self }
    {
        matches!(self, Phase::Expired)
    }

    pub fn is_active(self) -> bool
        ensures exact { result ≡ is_active self }
    {
        matches!(self, Phase::Active(_))
    }

    // Active, and its data not yet taken.
    pub fn is_untaken(self) -> bool
        ensures exact { result ≡ not_taken self }
    {
        matches!(self, Phase::Active(false))
    }
}

// A phase as a word, and a word as a phase: every word is one.
impl From<Phase> for u64 {
    ghost from_gives = { λ p w. w ≡ phase_word p };

    fn from(p: Phase) -> u64 {
        match p {
            Phase::Expired => 0,
            Phase::Active(false) => 1,
            Phase::Active(true) => 2,
            Phase::Waiting(due) => HALF + u64::from(due),
        }
    }
}

impl From<u64> for Phase {
    ghost from_gives = { λ w p. p ≡ phase_of w };

    #[tactic(auto, unfolding(crate::specs::Rows::phase_of))]
    fn from(w: u64) -> Phase {
        match w {
            0 => Phase::Expired,
            1 => Phase::Active(false),
            2 => Phase::Active(true),
            _ => Phase::Waiting((w % HALF) as u32),
        }
    }
}

// Its data are the first `len` bytes of slot `slot`.
#[derive(Clone, Copy)]
pub struct Request {
    pub name: u64,
    pub program: u32,
    pub terminal: u32,
    pub phase: Phase,
    pub len: u8,
    pub slot: u8,
}

// The request in a row, and the row of a request.
impl From<[u64; 4]> for Request {
    ghost from_gives = { λ w q. q ≡ decode (row_of w) };

    fn from(row: [u64; 4]) -> Request {
        let [name, who, phase, rest] = row;
        let [len, slot, ..] = rest.to_le_bytes();
        Request {
            name,
            program: (who / HALF) as u32,
            terminal: (who % HALF) as u32,
            phase: Phase::from(phase),
            len,
            slot,
        }
    }
}

impl From<Request> for [u64; 4] {
    ghost from_gives = { λ q w. w ≡ words_of (encode q ∷ []) };

    fn from(q: Request) -> [u64; 4] {
        [
            q.name,
            u64::from(q.program) * HALF + u64::from(q.terminal),
            u64::from(q.phase),
            u64::from(u16::from_le_bytes([q.len, q.slot])),
        ]
    }
}

// The tick register.
pub fn register(t: &[u64]) -> u32
    ensures exact { result ≡ register_of (view_of t.now) }
{
    (word_at(t, REGISTER) % HALF) as u32
}

// The rows, in use or not.
#[tactic(auto, using(crate::specs::Laws::View::rows_read, crate::specs::Laws::View::rows_size))]
pub fn rows(t: &[u64]) -> &[[u64; 4]]
    ensures exact { map row_of result.now ≡ (view_of t.now).rows }
    ensures len { length result.now ≡ length (view_of t.now).rows }
{
    let (rows, _) = t[HEAD.min(t.len())..].as_chunks::<4>();
    rows
}

// The rows in use: a request each.
#[tactic(auto, using(crate::specs::Laws::View::live_read))]
pub fn live(t: &[u64]) -> &[[u64; 4]]
    ensures exact { map row_of result.now ≡ live (view_of t.now) }
    ensures len { length result.now ≡ length (live (view_of t.now)) }
{
    front(rows(t), word_at(t, COUNT) as usize)
}

// The request in row i; past the last row, that of four zeros.
pub fn request_at(t: &[u64], i: usize) -> Request
    ensures exact { result ≡ decode (get_or (view_of t.now).rows i no_row) }
{
    Request::from(rows(t).get(i).copied().unwrap_or([0; 4]))
}

// How many requests there are.
pub fn count(t: &[u64]) -> usize
    ensures exact { result ≡ length (live (view_of t.now)) }
{
    live(t).len()
}

// The request into row i; past the last row nothing changes.
#[tactic(auto, using(crate::specs::Laws::View::rows_in_lem))]
pub fn put_request(t: &mut [u64], i: usize, q: Request)
    ensures exact { view_of t.new ≡ with_row (view_of t.old) i (encode q) }
{
    if i < rows(t).len() {
        let at = HEAD + i * WIDTH;
        t[at..at + WIDTH].copy_from_slice(&<[u64; 4]>::from(q));
    }
}

// Another phase of the request in row i: the third word of its row. The others stay as they were lent, which a request stored anew would not say.
#[tactic(auto, using(crate::specs::Laws::View::rows_in_lem, crate::specs::Laws::View::view_phase))]
pub fn put_phase(t: &mut [u64], i: usize, p: Phase)
    ensures exact { view_of t.new ≡ with_row (view_of t.old) i (in_phase p (get_or (view_of t.old).rows i no_row)) }
{
    if i < rows(t).len() {
        t[HEAD + i * WIDTH + 2] = u64::from(p);
    }
}
