// Bytes from a reader.
ghost use Rattle.std.specs.Prelude.{◌<◌, length, take, IfOk};
ghost use Rattle.std.specs.Io.KnownBytes.{Consumes, IsAtEnd};
ghost use Rattle.io.specs.Counts.{IsPrefixLen};

use std::io::{Read, Result};

// Reads until the bytes are full or the input ends, and answers how many came.
pub fn read_full<R: Read>(input: &mut R, bytes: &mut [u8]) -> Result<usize>
    ensures within { IfOk result (λ n. IsPrefixLen n bytes.new) }
    ensures read { IfOk result (λ n. Consumes (R.remaining input.old) (R.remaining input.new) (take n bytes.new)) }
    ensures end { IfOk result (λ n. n < length bytes.new → IsAtEnd (R.remaining input.new)) }
{
    let mut done: usize = 0;
    // Not a `for`: each turn moves on by as many bytes as came.
    while done < bytes.len() {
        let n = input.read(&mut bytes[done..])?;
        if n == 0 {
            break;
        }
        done += n;
    }
    Ok(done)
}
