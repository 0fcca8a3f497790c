// The list program: "reads one list from standard input and prints a line for each answer".
//
// One byte more than a list may have is read, so that a list that is too long is refused as one. What cannot be read whole
// is no list, and is refused as no bytes are. The answer is written first; then what is left of a longer input is read and
// dropped, so that whoever writes it down a pipe is not stopped by a broken one: no more than 64 MiB of it, so that an input
// without end does not keep the program.
#![tactic(auto)]

ghost use Rattle.std.specs.Counts.{IsPrefixLen};
ghost use Rattle.std.specs.Prelude.{IfSome};

use printed::form::form;
use std::io;
use std::io::Read;

fn main(rt: HostRuntime) {
    let mut input = rt.stdin();
    let mut list = [0u8; 4097];
    match read_list(&mut input, &mut list) {
        Some(n) => print_form(&rt, &list[..n]),
        None => {
            print_form(&rt, b"");
            drop_rest(&mut input);
        }
    }
}

// How many bytes the input has; none if it goes on behind the buffer, or cannot be read.
fn read_list(input: &mut impl Read, list: &mut [u8]) -> Option<usize>
    ensures { IfSome result (λ n. IsPrefixLen n list.new) }
{
    let mut n: usize = 0;
    while n < list.len() {
        match input.read(&mut list[n..]) {
            Ok(got) if got > 0 => n += got,
            _ => break,
        }
    }
    let mut more = [0u8; 65536];
    match input.read(&mut more) {
        Ok(0) => Some(n),
        _ => None,
    }
}

// What goes wrong is said; the exit status is 0 all the same.
fn print_form(rt: &(impl Print + Eprint), list: &[u8]) {
    let mut text = [0u8; 65536];
    let k = form(list, &mut text);
    if rt.write_all(&text[..k]).is_err() {
        let _ = rt.eprintln("list: the answers could not be written");
    }
}

fn drop_rest(input: &mut impl Read) {
    let _ = io::copy(&mut input.take(67108864), &mut io::sink());
}
