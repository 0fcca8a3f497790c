// "It is framed whole before anything runs."
ghost use Rattle.std.specs.Prelude.{◌≡◌};
ghost use Rattle.model.specs.Lists.{headed, framed};
ghost use Rattle.frames.specs.Framing.{framing};
ghost use Rattle.frames.specs.Reading.{left};

use super::reading::{Part, record_at};
use base::bytes::number_at;

// What is read of a list that is accepted: how many records it has, and the start value of the register.
#[derive(Clone, Copy)]
pub struct Framed {
    pub records: usize,
    pub start: u32,
}

// None where the list is refused (35).
pub fn frame(list: &[u8]) -> Option<Framed>
    ensures exact { result ≡ framing (framed list.now) }
{
    if headed(list) {
        scan(list, number_at(list, 5, 4) as u32)
    } else {
        None
    }
}

// "4-byte length of what follows it, version byte 1, 4-byte start value of the register": 9..4,096 bytes in all.
fn headed(list: &[u8]) -> bool
    ensures { result ≡ headed list.now }
{
    (9..=4096).contains(&list.len())
        && number_at(list, 0, 4) + 4 == list.len() as u64
        && list[4] == 1
}

// "Records fill the list exactly": they are counted.
fn scan(list: &[u8], start: u32) -> Option<Framed>
    ensures { result ≡ framing (left start list.now 9) }
{
    let mut at: usize = 9;
    let mut records: usize = 0;
    loop {
        match record_at(list, at) {
            Part::Record { start: _, next } => {
                at = next;
                records += 1;
            }
            Part::End => return Some(Framed { records, start }),
            Part::Bad => return None,
        }
    }
}
