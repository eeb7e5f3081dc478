// Makes the calls that standard input asks for, as C makes them (crate gandhrumil), and prints what each answers.
//
// The input is batches one after another. A batch is, in little-endian words of 4 bytes: the floor's length, then its bytes; how many numbers
// the table has, then these; how many the governing slice has, then these; how many calls there are, then each call, which is a word and what
// the call asks for:
//
//     1  open
//     2  change    its length, then its bytes
//     3  panel     x bay, y bay: two words each, the low one first
//     4  steel     m, b, t, d, fc, fy: two words each, the low one first
//     5  show
//     6  clear
//     7  places    how many numbers the slice has, then these
//     8  schedule  the buffer's length, then its bytes
//
// `show` prints the floor's bytes, then all the numbers of the table and of the governing slice, past their records too, each on a line of its
// own; the others print refusal and value on a line, and after them `places` all the numbers of its slice, `schedule` all the bytes of its buffer.
// The program stops at a batch without calls, which is what the end of the input reads as, at a length that its buffers have no room for, and at a
// word that is no call.
#![tactic(auto)]

ghost use Rattle.std.specs.Prelude.{◌*◌, ◌≤◌, length};
ghost use Rattle.tables.specs.Width.{record_width};
ghost use Rattle.calls.specs.Shown.{Shown, Listable};

use answers::Answer;
use gandhrumil::{
    gandhrumil_change, gandhrumil_clear, gandhrumil_open, gandhrumil_panel, gandhrumil_places,
    gandhrumil_schedule, gandhrumil_steel,
};
use plan::fields::u32_at;
use sheets::pair;
use sheets::pieces::{CutOff, write_rows};
use sheets::read::read_full;
use std::io;
use std::io::{ErrorKind, Read, Write};
use supports::SUPPORT;
use tables::write::WIDTH;

// There is no heap: what is read or printed stands in arrays of fixed size, of which a slice of as many as there are is handed on.
const LONGEST_FLOOR: usize = 4096;

// Eight records more than the largest floor has.
const LONGEST_TABLE: usize = 320 * WIDTH;

// Eight supports more than the largest floor has.
const LONGEST_GOVERNING: usize = 346 * SUPPORT;

const LONGEST_CHANGE: usize = 64;

// Ten places more than the largest floor has, of four numbers each.
const LONGEST_PLACES: usize = 803 * 4;

// Three schedule records more than the largest floor has, of 32 bytes each.
const LONGEST_SCHEDULE: usize = 1875 * 32;

// Input and output come as two, here and in figures: what reads takes the one, what prints the other, and a struct would be taken apart for each.

// The next word of the input, 0 past its end.
fn word<R: Read>(input: &mut R) -> io::Result<u32> {
    let mut bytes = [0u8; 4];
    read_full(input, &mut bytes)?;
    Ok(u32_at(&bytes, 0))
}

fn long<R: Read>(input: &mut R) -> io::Result<u64> {
    let low = word(input)? as u64;
    let high = word(input)? as u64;
    Ok(high * 4294967296 + low)
}

fn read_numbers<R: Read>(input: &mut R, slice: &mut [u32]) -> io::Result<()> {
    for number in slice.iter_mut() {
        *number = word(input)?;
    }
    Ok(())
}

fn show_answer<W: Write>(out: &mut W, answer: Answer) -> io::Result<()> {
    let mut text = [0u8; 22];
    let n = pair(answer.refusal, answer.value, &mut text);
    out.write_all(&text[..n])
}

fn show_byte<W: Write>(out: &mut W, byte: u8) -> io::Result<()> {
    writeln!(out, "{byte}")
}

fn show_bytes<W: Write>(out: &mut W, bytes: &[u8]) -> io::Result<()> {
    for byte in bytes {
        show_byte(out, *byte)?;
    }
    Ok(())
}

// Numbers that were not taken whole end the program, as any other write that fails.
fn taken(sent: Result<usize, CutOff>) -> io::Result<()> {
    match sent {
        Ok(_) => Ok(()),
        Err(_) => Err(io::Error::from(ErrorKind::WriteZero)),
    }
}

fn read_and_list<R: Read, W: Write>(
    input: &mut R,
    out: &mut W,
    floor: &[u8],
    places: &mut [u32],
) -> io::Result<()>
    requires { Listable places.old }
{
    read_numbers(input, places)?;
    show_answer(out, gandhrumil_places(floor, places))?;
    taken(write_rows(out, places, 1, places.len()))
}

// A length and its test open this and `schedule`, `change`, `with_table`, `with_floor` and `batch`. No function of all: the buffers differ in type
// and size and so does what follows, which it would take as a closure; of the test alone, each would keep a `let .. else`.
fn places<R: Read, W: Write>(input: &mut R, out: &mut W, floor: &[u8]) -> io::Result<bool> {
    let mut numbers = [0u32; LONGEST_PLACES];
    let n = word(input)? as usize;
    if n > LONGEST_PLACES {
        return Ok(false);
    }
    read_and_list(input, out, floor, &mut numbers[..n])?;
    Ok(true)
}

fn read_and_schedule<R: Read, W: Write>(
    input: &mut R,
    out: &mut W,
    floor: &[u8],
    bytes: &mut [u8],
) -> io::Result<()> {
    read_full(input, bytes)?;
    show_answer(out, gandhrumil_schedule(floor, bytes))?;
    show_bytes(out, bytes)
}

fn schedule<R: Read, W: Write>(input: &mut R, out: &mut W, floor: &[u8]) -> io::Result<bool> {
    let mut bytes = [0u8; LONGEST_SCHEDULE];
    let n = word(input)? as usize;
    if n > LONGEST_SCHEDULE {
        return Ok(false);
    }
    read_and_schedule(input, out, floor, &mut bytes[..n])?;
    Ok(true)
}

// What the calls of a batch are lent, with no more numbers than the buffers have room for.
#[derive(Drop)]
struct Lent<'a> {
    floor: &'a mut [u8],
    table: &'a mut [u32],
    governing: &'a mut [u32],
    ghost shown: { Shown table.now governing.now },
}

impl Lent<'_> {
    fn show<W: Write>(&self, out: &mut W) -> io::Result<()> {
        show_bytes(out, self.floor)?;
        taken(write_rows(out, self.table, 1, self.table.len()))?;
        taken(write_rows(out, self.governing, 1, self.governing.len()))
    }

    fn read_and_change<R: Read, W: Write>(
        &mut self,
        input: &mut R,
        out: &mut W,
        change: &mut [u8],
    ) -> io::Result<()> {
        read_full(input, change)?;
        let answer = gandhrumil_change(self.floor, self.table, self.governing, change);
        show_answer(out, answer)
    }

    fn change<R: Read, W: Write>(&mut self, input: &mut R, out: &mut W) -> io::Result<bool> {
        let mut bytes = [0u8; LONGEST_CHANGE];
        let n = word(input)? as usize;
        if n > LONGEST_CHANGE {
            return Ok(false);
        }
        self.read_and_change(input, out, &mut bytes[..n])?;
        Ok(true)
    }

    // Makes the next call, and answers whether there was one. A number, not an enum: it is the input's format.
    fn call<R: Read, W: Write>(&mut self, input: &mut R, out: &mut W) -> io::Result<bool> {
        match word(input)? {
            1 => show_answer(out, gandhrumil_open(self.floor, self.table, self.governing))?,
            2 => return self.change(input, out),
            3 => show_answer(
                out,
                gandhrumil_panel(self.floor, long(input)?, long(input)?),
            )?,
            4 => show_answer(
                out,
                gandhrumil_steel(
                    long(input)?,
                    long(input)?,
                    long(input)?,
                    long(input)?,
                    long(input)?,
                    long(input)?,
                ),
            )?,
            5 => self.show(out)?,
            6 => show_answer(out, gandhrumil_clear(self.floor))?,
            7 => return places(input, out, self.floor),
            8 => return schedule(input, out, self.floor),
            _ => return Ok(false),
        }
        Ok(true)
    }

    fn calls<R: Read, W: Write>(&mut self, input: &mut R, out: &mut W) -> io::Result<bool> {
        let n = word(input)?;
        if n == 0 {
            return Ok(false);
        }
        for _ in 0..n {
            if !self.call(input, out)? {
                return Ok(false);
            }
        }
        Ok(true)
    }
}

fn with_table<R: Read, W: Write>(
    input: &mut R,
    out: &mut W,
    floor: &mut [u8],
    table: &mut [u32],
) -> io::Result<bool>
    requires { length table.old ≤ 320 * record_width }
{
    let mut governing = [0u32; LONGEST_GOVERNING];
    read_numbers(input, table)?;
    let n = word(input)? as usize;
    if n > LONGEST_GOVERNING {
        return Ok(false);
    }
    read_numbers(input, &mut governing[..n])?;
    let mut lent = Lent {
        floor,
        table,
        governing: &mut governing[..n],
    };
    lent.calls(input, out)
}

fn with_floor<R: Read, W: Write>(input: &mut R, out: &mut W, floor: &mut [u8]) -> io::Result<bool> {
    let mut table = [0u32; LONGEST_TABLE];
    read_full(input, floor)?;
    let n = word(input)? as usize;
    if n > LONGEST_TABLE {
        return Ok(false);
    }
    with_table(input, out, floor, &mut table[..n])
}

// Makes the calls of one batch, and answers whether another may follow.
fn batch<R: Read, W: Write>(input: &mut R, out: &mut W) -> io::Result<bool> {
    let mut floor = [0u8; LONGEST_FLOOR];
    let n = word(input)? as usize;
    if n > LONGEST_FLOOR {
        return Ok(false);
    }
    with_floor(input, out, &mut floor[..n])
}

// The loop is also that of crate figures: a function of both would take `batch` as a closure, and would save no line.
fn main(rt: HostRuntime) -> io::Result<()> {
    let mut input = rt.stdin();
    let mut out = rt.stdout();
    for _ in 0..u64::MAX {
        if !batch(&mut input, &mut out)? {
            break;
        }
    }
    Ok(())
}
