// What a command says: its condition and number, and how many bytes it laid at the front of the lent body.
ghost use Rattle.std.specs.Prelude.{◌≡◌, ◌≤◌};

// "Conditions: 0 normal, 1 no space, 2 unknown queue, .."
#[derive(Clone, Copy)]
pub enum Condition {
    Normal,
    NoSpace,
    UnknownQueue,
    NoSuchItem,
    WrongLength,
    UnknownProgram,
    UnknownTerminal,
    NotUnique,
    NotFound,
    EndOfData,
    InvalidRequest,
}

impl Condition {
    ghost use Rattle.std.specs.Prelude.{◌≡◌, nat_lt};
    ghost use Rattle.base.specs.Choice.{pick};
    ghost use Rattle.model.specs.Plans.{normal, wrong_length};
    ghost use Rattle.words.specs.Said.{code_of};

    // "A reader whose room is shorter than the item gets the first room bytes and condition 4"
    pub fn of_cut(full: usize, room: usize) -> Condition
        ensures exact { code_of result ≡ pick (nat_lt room full) wrong_length normal }
    {
        if room < full {
            Condition::WrongLength
        } else {
            Condition::Normal
        }
    }
}

// Document 01's number of a condition.
impl From<Condition> for u8 {
    ghost use Rattle.words.specs.Said.{code_of};

    ghost from_gives = { λ c n. n ≡ code_of c };

    fn from(c: Condition) -> u8 {
        match c {
            Condition::Normal => 0,
            Condition::NoSpace => 1,
            Condition::UnknownQueue => 2,
            Condition::NoSuchItem => 3,
            Condition::WrongLength => 4,
            Condition::UnknownProgram => 5,
            Condition::UnknownTerminal => 6,
            Condition::NotUnique => 7,
            Condition::NotFound => 8,
            Condition::EndOfData => 9,
            Condition::InvalidRequest => 10,
        }
    }
}

// No `Result`: a cut read has a condition, a number and bytes at once, so `Normal` is a condition among the others. No command hands out more than 64
// bytes; they lie in the caller's buffer, and there are `len` of them.
#[derive(Clone, Copy)]
pub struct Said {
    pub condition: Condition,
    pub number: u32,
    pub len: usize,
    pub ghost short: { len ≤ 64 },
}

impl Said {
    ghost use Rattle.words.specs.Said.{plainly};

    // A condition and a number, and no bytes.
    pub fn plain(condition: Condition, number: u32) -> Said
        ensures exact { result ≡ plainly condition number }
    {
        Said {
            condition,
            number,
            len: 0,
        }
    }
}
