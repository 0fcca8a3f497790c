// Many lists in one run: each line of standard input is a list in hex. Prints the lines of each as the list program does, and
// a line `.` behind them, as `second --many` does, so that the two can be compared. A line that is not hex holds no list, and
// is refused as no bytes are.
#![tactic(auto)]

ghost use Rattle.std.specs.Counts.{IsPrefixLen};
ghost use Rattle.std.specs.Prelude.{◌<◌, IfSome};

use printed::form::form;
use std::io::Read;

// Two digits for each byte of a list that is one byte too long: what stands behind them in its line changes nothing.
const LINE: usize = 8194;

// A line as far as it is read: the programs have no heap.
#[derive(Drop)]
struct Line {
    digits: [u8; LINE],
    len: usize,
}

impl Line {
    fn push(&mut self, byte: u8) {
        if self.len < LINE {
            self.digits[self.len] = byte;
            self.len += 1;
        }
    }
}

// A proved loop has to end, and nothing says that its input does: it has more turns than any run uses up.
fn main(rt: HostRuntime) {
    let mut input = rt.stdin();
    let mut chunk = [0u8; 65536];
    let mut line = Line {
        digits: [0; LINE],
        len: 0,
    };
    for _ in 0..u64::MAX {
        match input.read(&mut chunk) {
            Ok(got) if got > 0 => serve(&rt, &chunk[..got], &mut line),
            _ => break,
        }
    }
    if line.len > 0 {
        answer(&rt, &line);
    }
}

// Answers each line that ends in the chunk, the first of them begun before; holds what is begun behind.
fn serve(rt: &(impl Print + Eprint), chunk: &[u8], line: &mut Line) {
    for byte in chunk {
        if *byte == b'\n' {
            answer(rt, line);
            line.len = 0;
        } else {
            line.push(*byte);
        }
    }
}

// The line is a list in hex. What is not is refused as no bytes are.
fn answer(rt: &(impl Print + Eprint), line: &Line) {
    let mut list = [0u8; 4097];
    let mut text = [0u8; 65536];
    let size = bytes_of(line, &mut list).unwrap_or(0);
    let k = form(&list[..size], &mut text);
    if rt.write_all(&text[..k]).is_err() {
        let _ = rt.eprintln("cases: the answers could not be written");
    }
    let _ = rt.write_all(b".\n");
}

// How many bytes the digits stand for; None where a digit is missing, is no digit, or has no room.
fn bytes_of(line: &Line, list: &mut [u8]) -> Option<usize>
    ensures { IfSome result (λ n. IsPrefixLen n list.new) }
{
    let (pairs, odd) = line.digits.get(..line.len)?.as_chunks::<2>();
    if !odd.is_empty() || pairs.len() > list.len() {
        return None;
    }
    for (byte, [high, low]) in list.iter_mut().zip(pairs) {
        *byte = digit(*high)? * 16 + digit(*low)?;
    }
    Some(pairs.len())
}

// A hex digit of either case.
fn digit(byte: u8) -> Option<u8>
    ensures { IfSome result (λ d. d < 16) }
{
    match byte {
        b'0'..=b'9' => Some(byte - b'0'),
        b'a'..=b'f' => Some(byte - b'a' + 10),
        b'A'..=b'F' => Some(byte - b'A' + 10),
        _ => None,
    }
}
