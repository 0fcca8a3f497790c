// Answers, and what a command says before the handlers decide. The bytes are the first `len`, and zeros behind them: fixed memory, for there is no heap.
// The action and the label are the two numbers that document 01's answer has, as the theorems on the monitor speak of them.
// The condition is a number too: the definitions of the older crates, `saying` among them, are by document 01's numbers.
ghost use Rattle.std.specs.Prelude.{◌≡◌, [], ◌≤◌, length};
ghost use Rattle.monitor.specs.Answers.{saying, answering};

use base::bytes::lay;

// "condition, action (0 go on, 1 go to label, 2 abend), 2-byte label (0 unless action 1), 4-byte number, 0..64 bytes"
#[derive(Clone, Copy)]
pub struct Answer {
    pub condition: u8,
    pub action: u8,
    pub label: u16,
    pub number: u32,
    pub len: usize,
    pub bytes: [u8; 64],
}

#[derive(Clone, Copy)]
pub struct Said {
    pub condition: u8,
    pub number: u32,
    pub len: usize,
    pub bytes: [u8; 64],
}

// A condition and a number, and no bytes.
pub fn plain(condition: u8, number: u32) -> Said
    ensures exact { result ≡ saying condition number [] }
{
    Said {
        condition,
        number,
        len: 0,
        bytes: [0u8; 64],
    }
}

pub(crate) fn carrying(condition: u8, number: u32, from: &[u8]) -> Said
    requires { length from.now ≤ 64 }
    ensures { result ≡ saying condition number from.now }
{
    let mut bytes = [0u8; 64];
    lay(&mut bytes, from);
    Said {
        condition,
        number,
        len: from.len(),
        bytes,
    }
}

// "The action alters neither number nor bytes."
pub fn answered(s: Said, action: u8, label: u16) -> Answer
    ensures exact { result ≡ answering s action label }
{
    // by a name of its own: the borrow checker does not cover an array field that is given straight
    let bytes = s.bytes;
    Answer {
        condition: s.condition,
        action,
        label,
        number: s.number,
        len: s.len,
        bytes,
    }
}
