// "Each answer goes into the lent buffer behind the one before it": the writer is lent the part of the buffer from the current end.
ghost use Rattle.std.specs.Prelude.{◌≡◌};
ghost use Rattle.model.specs.Lists.{encoded};
ghost use Rattle.frames.specs.Writing.{head_of, answer_of, written, written_over};

use base::sets::front;

// The bytes that stand before an answer's own.
const HEAD: usize = 10;

// The answer's bytes are the first `len` of `bytes`, 64 at most. Returns how many bytes of the buffer it took:
// none, and the buffer is as it was, where the answer has no room. The caller adds them to its place in the buffer.
// Numbers, as the model's `encoded` has them.
pub fn write_answer(
    out: &mut [u8],
    condition: u8,
    action: u8,
    label: u16,
    number: u32,
    bytes: &[u8],
    len: usize,
) -> usize
    ensures exact { written result out.new ≡ written_over (encoded (answer_of condition action label number bytes.now len)) out.old }
{
    let own = front(front(bytes, 64), len);
    let n = own.len();
    if out.len() < HEAD + n {
        return 0;
    }
    put_head(out, condition, action, label, number, n);
    // most answers have none, and to copy nothing is a call all the same (docs/SPEED.md)
    if n > 0 {
        out[HEAD..HEAD + n].copy_from_slice(own);
    }
    HEAD + n
}

// The ten bytes before an answer's own, of which there are n. Where the buffer has no room for them it is as it was.
pub fn put_head(out: &mut [u8], condition: u8, action: u8, label: u16, number: u32, n: usize)
    ensures exact { out.new ≡ (written_over (head_of condition action label number n) out.old).buffer }
{
    if out.len() < HEAD {
        return;
    }
    // of what follows the length field: the head's other 8 bytes, and the n
    let size = ((n % 65536) as u16).wrapping_add(8);
    out[..2].copy_from_slice(&size.to_be_bytes());
    out[2..4].copy_from_slice(&[condition, action]);
    out[4..6].copy_from_slice(&label.to_be_bytes());
    out[6..HEAD].copy_from_slice(&number.to_be_bytes());
}
