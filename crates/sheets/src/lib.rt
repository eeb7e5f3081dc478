// Lines of decimal numbers as text, in a lent buffer. Each function writes at a place and answers the place after its text. A place, not a slice of
// what is left: `Wrote` says of the whole buffer that what stands before the place stays.
#![tactic(auto)]

pub mod pieces;
pub mod read;

ghost use Rattle.std.specs.Prelude.{[], ◌∷◌, ◌+◌, ◌*◌, ◌≤◌, ◌<◌, length, take, drop};
ghost use Rattle.sheets.specs.Text.{decimal, further, line, lines};
ghost use Rattle.sheets.specs.Wrote.{Wrote, Room, Line};

// No text is made by `write!`, which does not say how many bytes it wrote: `Wrote` has the place where each ends, and `Printed` counts them.
const SPACE: u8 = b' ';

const NEWLINE: u8 = b'\n';

// One byte.
fn mark(out: &mut [u8], at: usize, b: u8) -> usize
    requires { at < length out.old }
    ensures { Wrote out.old at (b ∷ []) out.new result }
{
    out[at] = b;
    at + 1
}

// n's decimal digits. `io::decimal` writes to 20 bytes and answers how many it took: there is no heap for a text.
fn number(out: &mut [u8], at: usize, n: u32) -> usize
    requires { at + 10 ≤ length out.old }
    ensures { Wrote out.old at (decimal n) out.new result × (result ≤ at + 10) }
{
    let mut text = [0u8; 20];
    let k = io::decimal(n as u64, &mut text);
    out[at..at + k].copy_from_slice(&text[..k]);
    at + k
}

// Each of the numbers, with a space before it.
fn further(numbers: &[u32], out: &mut [u8], at: usize) -> usize
    requires { at + 11 * length numbers.now ≤ length out.old }
    ensures { Wrote out.old at (further numbers.now) out.new result × (result ≤ at + 11 * length numbers.now) }
{
    let mut end = at;
    for n in numbers {
        let next = mark(out, end, SPACE);
        end = number(out, next, *n);
    }
    end
}

// The numbers, of which there are some, as a line.
fn row(numbers: &[u32], out: &mut [u8], at: usize) -> usize
    requires { Room numbers.now 0 (length numbers.now) 1 out.old at }
    ensures { Wrote out.old at (line numbers.now) out.new result × (result ≤ at + 11 * length numbers.now) }
{
    let first = number(out, at, numbers[0]);
    let end = further(&numbers[1..], out, first);
    mark(out, end, NEWLINE)
}

// The records of `width` numbers of the table from record `first` on, `count` of them, each as a line, at the start of out.
// Numbers, here and in `pieces`, not a slice of the records: `Room` asks for them, and the promise says where in the table the lines come from.
pub fn rows(table: &[u32], width: usize, first: usize, count: usize, out: &mut [u8]) -> usize
    requires { Room table.now (first * width) width count out.old 0 }
    ensures { Wrote out.old 0 (lines width count (drop (first * width) table.now)) out.new result × (result ≤ 11 * (count * width)) }
{
    let mut end: usize = 0;
    for k in 0..count {
        let from = (first + k) * width;
        end = row(&table[from..from + width], out, end);
    }
    end
}

// Two numbers as a line, at the start of out.
pub fn pair(a: u32, b: u32, out: &mut [u8]) -> usize
    requires { Line out.old }
    ensures { Wrote out.old 0 (line (a ∷ b ∷ [])) out.new result × (result ≤ 22) }
{
    row(&[a, b], out, 0)
}
