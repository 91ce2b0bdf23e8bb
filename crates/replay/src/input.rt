// An input read into a lent buffer. This is a loop, since of the library's calls `read_exact` fails where the input is shorter, and
// `read_to_end` reads into memory that it asks for.
ghost use Rattle.std.specs.Prelude.{◌≡◌, ◌<◌, ◌≤◌, ℕ, IfOk, OnErr, length, take};
ghost use Rattle.std.specs.Io.KnownBytes.{Consumes, IsAtEnd};

use std::io;
use std::io::Read;

// Reads until the buffer is full or the input ends: how many bytes stand at the front. A read that fails ends it, with its error;
// what was read before it stands at the front.
pub fn read_full<R: Read>(input: &mut R, buffer: &mut [u8]) -> io::Result<usize>
    ensures in_bounds { IfOk result (λ n. n ≤ length buffer.new) }
    ensures bytes { IfOk result (λ n. Consumes (R.remaining input.old) (R.remaining input.new) (take n buffer.new)) }
    ensures end { IfOk result (λ n. n < length buffer.new → IsAtEnd (R.remaining input.new)) }
    ensures kept { OnErr result ((n : ℕ) × (n < length buffer.new) × Consumes (R.remaining input.old) (R.remaining input.new) (take n buffer.new)) }
{
    let mut size = 0;
    while size < buffer.len() {
        let n = input.read(&mut buffer[size..])?;
        if n == 0 {
            return Ok(size);
        }
        size += n;
    }
    Ok(size)
}
