// Reading a buffer full, and writing bytes whole.
#![tactic(auto)]

ghost use Rattle.std.specs.Prelude.{◌≡◌, ℕ, ◌≤◌, ◌<◌, length, take, IfOk, OnErr, IfSome};
ghost use Rattle.std.specs.Io.KnownBytes.{Consumes, IsAtEnd};
ghost use Rattle.streams.specs.Streams.{Loses, Prints};

use std::io::{self, ErrorKind, Read, Write};

// Reads until the buffer is full or the input ends, and says how many bytes stand at its front. After an error the bytes that were read by then stand there.
pub fn read_full<R: Read>(input: &mut R, buffer: &mut [u8]) -> io::Result<usize>
    ensures front { IfOk result (λ n. IfSome (R.remaining input.old)
        (λ xs. take n buffer.new ≡ take (length buffer.new) xs)) }
    ensures within { IfOk result (λ n. n ≤ length buffer.new) }
    ensures bytes { IfOk result (λ n. Consumes (R.remaining input.old) (R.remaining input.new) (take n buffer.new)) }
    ensures end { IfOk result (λ n. n < length buffer.new → IsAtEnd (R.remaining input.new)) }
    ensures err { OnErr result ((n : ℕ) × (n ≤ length buffer.new)
        × Consumes (R.remaining input.old) (R.remaining input.new) (take n buffer.new)) }
    ensures loses { Loses (R.remaining input.old) (R.remaining input.new) }
{
    // counted, since the count is the answer; `read_exact` of std fails where the input is shorter
    let mut done: usize = 0;
    while done < buffer.len() {
        let n = input.read(&mut buffer[done..])?;
        if n == 0 {
            return Ok(done);
        }
        done += n;
    }
    Ok(done)
}

// Writes all of the bytes. After an error some of them are written, from the first on, which `write_all` of std does not promise.
pub fn write_full<W: Write>(out: &mut W, bytes: &[u8]) -> io::Result<()>
    ensures { Prints result (W.contents out.old) (W.contents out.new) bytes.now }
{
    let mut rest = bytes;
    while !rest.is_empty() {
        let n = out.write(rest)?;
        if n == 0 {
            return Err(io::Error::from(ErrorKind::WriteZero));
        }
        rest = &rest[n..];
    }
    Ok(())
}
