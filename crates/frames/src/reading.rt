// "The reader over the list keeps the list and its place together": a thin struct over the covered `record_at`.
// A caller goes through `part_at`, whose parameters are plain.
ghost use Rattle.std.specs.Prelude.{◌≡◌, ◌+◌, ◌≤◌, length};
ghost use Rattle.base.specs.Bytes.{num};
ghost use Rattle.frames.specs.Reading.{part_at};

// "a record length below 9": the command and the issuer are 9 bytes.
const LEAST: usize = 9;

#[derive(Clone, Copy)]
pub struct Reader<'a> {
    pub list: &'a [u8],
    pub at: usize,
}

// What stands at a place: a record, its bytes from start to next; the end; or what no record is.
// Three answers: a Result of an Option would nest two words for what is read as one.
#[derive(Clone, Copy)]
pub enum Part {
    Record { start: usize, next: usize },
    End,
    Bad,
}

// The two bytes at a place as a number: straight, and not by `number_at`, whose loop each record would pay for twice (docs/SPEED.md).
fn length_at(list: &[u8], at: usize) -> usize
    requires { at + 2 ≤ length list.now }
    ensures { result ≡ num at 2 list.now }
{
    usize::from(u16::from_be_bytes([list[at], list[at + 1]]))
}

// The work: what stands at a place of a list.
pub fn record_at(list: &[u8], at: usize) -> Part
    ensures exact { result ≡ part_at list.now at }
{
    if list.len() <= at {
        return Part::End;
    }
    let room = list.len() - at;
    if room < 2 {
        return Part::Bad;
    }
    let n = length_at(list, at);
    if n < LEAST {
        return Part::Bad;
    }
    if room - 2 < n {
        return Part::Bad;
    }
    Part::Record {
        start: at + 2,
        next: at + 2 + n,
    }
}

impl<'a> Reader<'a> {
    // At the first record, behind the header.
    pub fn new(list: &'a [u8]) -> Reader<'a>
        ensures exact { (result.list ≡ list.entry) × (result.at ≡ 9) }
    {
        Reader { list, at: 9 }
    }

    // The same list, at another place.
    pub fn moved(self, at: usize) -> Reader<'a>
        ensures exact { (result.list ≡ self.entry.list) × (result.at ≡ at) }
    {
        Reader {
            list: self.list,
            at,
        }
    }

    // What stands at its place.
    pub fn next(self) -> Part
        ensures exact { result ≡ part_at self.entry.list.now self.entry.at }
    {
        record_at(self.list, self.at)
    }
}

// What a reader of the list says at a place.
pub fn part_at(list: &[u8], at: usize) -> Part
    ensures exact { result ≡ part_at list.now at }
{
    Reader::new(list).moved(at).next()
}
