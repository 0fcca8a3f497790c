// "prints a line for each answer: place (from 1), condition, action, label and number in decimal, then the bytes in
// lower-case hex or "-" if there are none, one space between."
ghost use Rattle.std.specs.Prelude.{◌≡◌, ◌≤◌, length};
ghost use Rattle.std.specs.Counts.{IsPrefixLen};
ghost use Rattle.frames.specs.Writing.{written};
ghost use Rattle.print.specs.Text.{laid, puts};
ghost use Rattle.print.specs.Lines.{lines_of, refusal_line, line_of, answer_of, bytes_text, answer_size};

use super::text::{put, put_hex, put_word};
use base::bytes::number_at;

// The lines of the answers that stand one behind the other in `answers`, up to the first that is none. Returns how many
// bytes of the buffer they took; they are cut where it ends, and what stands behind them is kept.
pub fn lines(answers: &[u8], out: &mut [u8]) -> usize
    ensures within { IsPrefixLen result out.new }
    ensures exact { written result out.new ≡ laid (lines_of answers.now) out.old }
{
    let mut end: usize = 0;
    let mut place: u64 = 1;
    let mut left = answers;
    // no iterator over parts: the answers are no slices of one length
    while let Some(n) = answer_size(left) {
        let (answer, behind) = left.split_at(n);
        end = put_line(out, end, place, answer);
        place += 1;
        left = behind;
    }
    end
}

// "A refused list prints the single line `0 35 0 0 0 -`."
pub fn refusal(out: &mut [u8]) -> usize
    ensures within { IsPrefixLen result out.new }
    ensures exact { written result out.new ≡ laid refusal_line out.old }
{
    put_line(out, 0, 0, &[0, 8, 35, 0, 0, 0, 0, 0, 0, 0])
}

// How many bytes the answer at the front has, its length field counted; None where no answer stands there.
fn answer_size(left: &[u8]) -> Option<usize>
    ensures { result ≡ answer_size left.now }
{
    let n = 2 + number_at(left, 0, 2) as usize;
    if 10 <= n && n <= left.len() {
        Some(n)
    } else {
        None
    }
}

fn put_line(out: &mut [u8], at: usize, place: u64, answer: &[u8]) -> usize
    requires { 10 ≤ length answer.now }
    ensures { written result out.new ≡ puts (written at out.old) (line_of place (answer_of answer.now)) }
{
    let a = put_word(out, at, place);
    let b = put_word(out, a, number_at(answer, 2, 1));
    let c = put_word(out, b, number_at(answer, 3, 1));
    let d = put_word(out, c, number_at(answer, 4, 2));
    let e = put_word(out, d, number_at(answer, 6, 4));
    let f = put_bytes(out, e, &answer[10..]);
    put(out, f, b'\n')
}

// "the bytes in lower-case hex or "-" if there are none".
fn put_bytes(out: &mut [u8], at: usize, bytes: &[u8]) -> usize
    ensures { written result out.new ≡ puts (written at out.old) (bytes_text bytes.now) }
{
    if bytes.is_empty() {
        put(out, at, b'-')
    } else {
        put_hex(out, at, bytes)
    }
}
