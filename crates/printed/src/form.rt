// What the list program prints of a list.
ghost use Rattle.std.specs.Prelude.{◌≡◌};
ghost use Rattle.std.specs.Counts.{IsPrefixLen};
ghost use Rattle.frames.specs.Writing.{written};
ghost use Rattle.print.specs.Text.{laid};
ghost use Rattle.printed.specs.Form.{formed};

use base::sets::front;
use lists::run::run;
use print::lines::{lines, refusal};

// 371 records at most fit a list of 4,096 bytes, and 74 bytes have room for the answer of each: only 35 can refuse a list here.
const ROOM: usize = 27454;

// "a line for each answer", or the refusal's. Returns how many bytes of the buffer the text took; it is cut where the buffer
// ends. 65,536 bytes have room for the text of every list: a line has 155 bytes at most.
pub fn form(list: &[u8], out: &mut [u8]) -> usize
    ensures within { IsPrefixLen result out.new }
    ensures exact { written result out.new ≡ laid (formed list.now) out.old }
{
    let mut answers = [0u8; ROOM];
    let Ok(written) = run(list, &mut answers) else {
        return refusal(out);
    };
    // a run writes no more than the buffer has: that is not asked of it here
    lines(front(&answers, written), out)
}
