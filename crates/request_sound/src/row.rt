// Whether a row is sound.
ghost use Rattle.std.specs.Prelude.{◌≡◌, ◌&&◌, nat_le};
ghost use Rattle.request_sound.specs.Sound.{phase_fits, laid, sound_row};

use base::names::{BLANK, NONE};
use request_rows::{Phase, Request};

// "1..359,999,000 ticks"
fn ahead(ticks: u32) -> bool
    ensures { result ≡ (nat_le 1 ticks && nat_le ticks 359_999_000) }
{
    (1..=359_999_000).contains(&ticks)
}

// Whether a phase suits the length of the data, by the ticks to go on the register's circle.
#[tactic(auto, unfolding(request_rows::specs::Circle::to_go))]
fn phase_sound(p: Phase, len: u8, register: u32) -> bool
    ensures { result ≡ phase_fits register len p }
{
    match p {
        Phase::Waiting(due) => ahead(due.wrapping_sub(register)),
        Phase::Expired => true,
        Phase::Active(taken) => !taken || len >= 1,
    }
}

// Its data are in its slot, and that is one of the lent bytes' slots.
fn data_laid(q: Request, slots: usize) -> bool
    ensures { result ≡ laid slots q }
{
    q.len <= 64 && usize::from(q.slot) < slots
}

// One row, whose program is known or not, and whose terminal is.
#[tactic(auto, unfolding(crate::specs::Sound::sound_row))]
pub(crate) fn row_sound(
    q: Request,
    register: u32,
    slots: usize,
    program: bool,
    terminal: bool,
) -> bool
    ensures { result ≡ sound_row register slots program terminal q }
{
    data_laid(q, slots)
        && q.name != BLANK
        && program
        && (q.terminal == NONE || terminal)
        && phase_sound(q.phase, q.len, register)
}
