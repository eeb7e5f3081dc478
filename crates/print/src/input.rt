// A floor file from a reader: as many of its bytes as decide what is printed of it. Of a reader whose bytes are known, they stand for all of
// these. No contract can say what standard input gives, which is no such reader.
ghost use Rattle.std.specs.Prelude.{◌≡◌, ◌+◌, ◌≤◌, ◌<◌, false, length, take, drop, IfSome};
ghost use Rattle.std.specs.Io.KnownBytes.{Consumes, IsAtEnd};
ghost use Rattle.io.specs.Counts.{IsPrefixLen};
ghost use Rattle.print.specs.Input.{stand_in, Stands, got_of, after_read, ReadOn, Room};

use std::io;
use std::io::Read;

// The largest floor has 3,568 bytes. Of an input of 3,584 bytes or more the refusal is 1, 2 or 3, and depends on its first record and on
// its length modulo 16 alone (`stand_in_lem`).
const LONG: usize = 3584;

// How many bytes stand for an input of n.
fn stand_in(n: usize) -> usize
    ensures { (result ≡ stand_in n) × (result ≤ 3599) }
{
    if n < LONG { n } else { LONG + n % 16 }
}

// What a read answered: how many bytes, 0 at the end of the input and where the read failed. No Result, here and below: what a read gave and left is
// promised even where it failed.
#[derive(Clone, Copy)]
struct Got {
    bytes: usize,
    failed: bool,
}

fn counted(answer: io::Result<usize>, bytes: &[u8]) -> Got
    ensures { result ≡ got_of answer (length bytes.now) }
{
    match answer {
        Ok(n) => Got {
            bytes: n.min(bytes.len()),
            failed: false,
        },
        Err(_) => Got {
            bytes: 0,
            failed: true,
        },
    }
}

// Reads once, to the bytes from `at` on.
fn read_on<R: Read>(input: &mut R, bytes: &mut [u8], at: usize) -> Got
    requires { at ≤ length bytes.old }
    ensures put { ReadOn bytes.old at bytes.new result.bytes }
    ensures read { Consumes (R.remaining input.old) (R.remaining input.new) (take result.bytes (drop at bytes.new)) }
    ensures end { at < length bytes.old → result.failed ≡ false → result.bytes ≡ 0 → IsAtEnd (R.remaining input.new) }
{
    let answer = input.read(&mut bytes[at..]);
    counted(answer, &bytes[at..])
}

// What was read: how many of the first bytes stand for it, whether it is all of the input, and whether a read failed.
#[derive(Clone, Copy)]
pub struct Input {
    pub bytes: usize,
    pub ended: bool,
    pub failed: bool,
}

// After n bytes that stand for what was read before, and one more read.
fn after(n: usize, got: Got) -> Input
    requires { n + got.bytes ≤ 65536 }
    ensures { (result ≡ after_read n got) × (result.bytes ≤ 3599) }
{
    let more = got.bytes;
    let bytes = stand_in(n + more);
    Input {
        bytes,
        ended: more == 0,
        failed: got.failed,
    }
}

// Reads the input to its end, each time behind the bytes that stand for what came before.
pub fn read_floor<R: Read>(input: &mut R, bytes: &mut [u8]) -> Input
    requires { Room bytes.old }
    ensures within { IsPrefixLen result.bytes bytes.new }
    ensures stands { result.failed ≡ false → IfSome (R.remaining input.old) (λ f. Stands f bytes.new result.bytes) }
{
    let mut n: usize = 0;
    for _ in 0..u64::MAX {
        let read = after(n, read_on(input, bytes, n));
        if read.ended {
            return read;
        }
        n = read.bytes;
    }
    Input {
        bytes: n,
        ended: false,
        failed: true,
    }
}
