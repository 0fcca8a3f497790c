// Text put behind text in a lent buffer, and cut where the buffer ends: the first `at` bytes of it are text so far.
// A struct that holds the buffer and its place would say twice more in each function: that it is the same buffer, and as long.
ghost use Rattle.std.specs.Prelude.{◌≡◌, [], ◌∷◌, ◌<◌};
ghost use Rattle.frames.specs.Writing.{written};
ghost use Rattle.print.specs.Text.{put as Text·put, puts, hex_digit_ascii, hex_of};
ghost use Rattle.print.specs.Lines.{word};

use itoa::Buffer;

// One byte.
pub(crate) fn put(out: &mut [u8], at: usize, byte: u8) -> usize
    ensures { written result out.new ≡ Text·put (written at out.old) byte }
{
    if at < out.len() {
        out[at] = byte;
        at + 1
    } else {
        at
    }
}

// Each byte as it stands.
pub(crate) fn put_all(out: &mut [u8], at: usize, bytes: &[u8]) -> usize
    ensures { written result out.new ≡ puts (written at out.old) bytes.now }
{
    let mut end = at;
    for byte in bytes {
        end = put(out, end, *byte);
    }
    end
}

// A number "in decimal", and the space behind it.
pub(crate) fn put_word(out: &mut [u8], at: usize, n: u64) -> usize
    ensures { written result out.new ≡ puts (written at out.old) (word n) }
{
    let mut digits = Buffer::new();
    let end = put_all(out, at, digits.format(n).as_bytes());
    put(out, end, b' ')
}

fn glyph(digit: u8) -> u8
    requires { digit < 16 }
    ensures { result ≡ hex_digit_ascii digit }
{
    if digit < 10 {
        b'0' + digit
    } else {
        b'a' - 10 + digit
    }
}

// A byte "in lower-case hex": by hand, as the text is cut where the buffer ends.
fn put_pair(out: &mut [u8], at: usize, byte: u8) -> usize
    ensures { written result out.new ≡ puts (written at out.old) (hex_of (byte ∷ [])) }
{
    let end = put(out, at, glyph(byte / 16));
    put(out, end, glyph(byte % 16))
}

// "the bytes in lower-case hex".
pub(crate) fn put_hex(out: &mut [u8], at: usize, bytes: &[u8]) -> usize
    ensures { written result out.new ≡ puts (written at out.old) (hex_of bytes.now) }
{
    let mut end = at;
    for byte in bytes {
        end = put_pair(out, end, *byte);
    }
    end
}
