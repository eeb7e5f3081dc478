// Lines of decimal numbers to a writer, as many at a time as surely fit a buffer. Where every write took all that it was handed, a writer whose
// bytes are known has the whole text behind those that it had. No contract can say what standard output took, which is no such writer: of it the
// bytes of all pieces, counted, are as many as the whole text has, so none is left out or written twice.
ghost use Rattle.std.specs.Prelude.{◌≡◌, ◌*◌, ◌≤◌, true, length, drop};
ghost use Rattle.std.specs.Io.KnownBytes.{Appends};
ghost use Rattle.sheets.specs.Text.{lines};
ghost use Rattle.sheets.specs.Pieces.{piece, Piece, Sheet, sent, Printed};

use crate::rows;
use std::io::Write;

// io's large buffer has room for so many numbers, each with the byte beside it.
const NUMBERS: usize = 5957;

// How many records of `width` numbers are written next, where some are left.
fn fitting(width: usize, left: usize) -> usize
    requires { 1 ≤ width }
    ensures { result ≡ piece width left }
{
    left.min(NUMBERS / width)
}

// A write that failed: how many bytes were handed to the writer up to it.
#[derive(Clone, Copy)]
pub struct CutOff {
    pub bytes: usize,
}

// Writes a text, and answers how many bytes it has. Whether it was all taken is the write's answer, of which no contract speaks.
pub fn send<W: Write>(out: &mut W, text: &[u8]) -> Result<usize, CutOff>
    ensures printed { Printed text.now (sent result) × ((sent result).bytes ≤ length text.now) }
    ensures taken { (sent result).whole ≡ true → Appends (W.contents out.old) (W.contents out.new) text.now }
{
    match out.write_all(text) {
        Ok(()) => Ok(text.len()),
        Err(_) => Err(CutOff { bytes: text.len() }),
    }
}

// Writes `count` records from record `first` on. Their text is the first bytes of a buffer of fixed size: there is no heap.
fn write_piece<W: Write>(
    out: &mut W,
    table: &[u32],
    width: usize,
    first: usize,
    count: usize,
) -> Result<usize, CutOff>
    requires { Piece table.now width first count }
    ensures printed { Printed (lines width count (drop (first * width) table.now)) (sent result) × ((sent result).bytes ≤ 11 * (count * width)) }
    ensures taken { (sent result).whole ≡ true → Appends (W.contents out.old) (W.contents out.new) (lines width count (drop (first * width) table.now)) }
{
    let mut text = io::large_buffer();
    let end = rows(table, width, first, count, &mut text);
    send(out, &text[..end])
}

// Writes the first `count` records of `width` numbers of the table, each as a line, up to a write that fails.
pub fn write_rows<W: Write>(
    out: &mut W,
    table: &[u32],
    width: usize,
    count: usize,
) -> Result<usize, CutOff>
    requires { Sheet table.now width count }
    ensures printed { Printed (lines width count table.now) (sent result) × ((sent result).bytes ≤ 11 * (count * width)) }
    ensures taken { (sent result).whole ≡ true → Appends (W.contents out.old) (W.contents out.new) (lines width count table.now) }
{
    let mut total: usize = 0;
    let mut done: usize = 0;
    // Not a `for`: a turn takes as many records as `fitting` answers.
    while done < count {
        let n = fitting(width, count - done);
        match write_piece(out, table, width, done, n) {
            Ok(bytes) => total += bytes,
            Err(cut) => {
                let bytes = total + cut.bytes;
                return Err(CutOff { bytes });
            }
        }
        done += n;
    }
    Ok(total)
}
