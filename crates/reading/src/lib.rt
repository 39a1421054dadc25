// A stream read into a caller's buffer, as far as it goes.
#![tactic(auto)]

ghost use Rattle.std.specs.Prelude.{◌≤◌, ◌<◌, length, take, IfOk};
ghost use Rattle.std.specs.Io.KnownBytes.{Consumes, IsAtEnd};

use std::io;
use std::io::Read;

// Reads until the stream ends or the buffer is full. Answers how many octets were read: they stand
// at the front of the buffer, and fewer than it takes only where the stream has no more.
pub fn read_full<R: Read>(input: &mut R, buffer: &mut [u8]) -> io::Result<usize>
    ensures within { IfOk result (λ n. n ≤ length buffer.new) }
    ensures octets { IfOk result
        (λ n. Consumes (R.remaining input.old) (R.remaining input.new) (take n buffer.new)) }
    ensures end { IfOk result (λ n. n < length buffer.new → IsAtEnd (R.remaining input.new)) }
{
    // A loop over `read`: `read_exact` does not tell how far the stream went where it ended early,
    // and `read_to_end` wants a heap.
    let mut n = 0;
    while n < buffer.len() {
        let count = input.read(&mut buffer[n..])?;
        if count == 0 {
            return Ok(n);
        }
        n += count;
    }
    Ok(n)
}
