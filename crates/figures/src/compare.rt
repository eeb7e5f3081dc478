// A printed figure against ours, and the line that says so.
ghost use Rattle.std.specs.Prelude.{◌≡◌, min, OnOk};
ghost use Rattle.std.specs.Io.KnownBytes.{Appends};
ghost use Rattle.figures.specs.Comparison.{off_by, within};
ghost use Rattle.figures.specs.Lines.{number_text, word_text, figure_line};

use numbers::rounded_up;
use std::io;
use std::io::Write;

// The difference in hundredths of a percent of their figure, rounded up; where theirs is 0, of 1.
fn compare(theirs: u32, ours: u32) -> u64
    ensures { result ≡ off_by theirs ours }
{
    let a = theirs as u64;
    let b = ours as u64;
    let apart = a.max(b) - a.min(b);
    let whole = a.max(1);
    rounded_up(10000 * apart, whole)
}

fn is_within(off: u64) -> bool
    ensures { result ≡ within off }
{
    off <= 100
}

fn show_number<W: Write>(out: &mut W, n: u64) -> io::Result<()>
    ensures { OnOk result (Appends (W.contents out.old) (W.contents out.new) (number_text n)) }
{
    write!(out, "{n} ")
}

// Two fixed texts, in which `write!` would have nothing to fill in.
fn show_word<W: Write>(out: &mut W, within: bool) -> io::Result<()>
    ensures { OnOk result (Appends (W.contents out.old) (W.contents out.new) (word_text within)) }
{
    if within {
        out.write_all(b"within\n")
    } else {
        out.write_all(b"beyond\n")
    }
}

// A line: the figure's number in docs/FIGURES.md, theirs, ours, the difference, and whether it is within one percent.
// Number and printed figure stand as two literals at each call: a struct of them would only make the calls longer.
pub fn figure<W: Write>(out: &mut W, number: u32, theirs: u32, ours: u32) -> io::Result<()>
    ensures { OnOk result (Appends (W.contents out.old) (W.contents out.new) (figure_line number theirs ours)) }
{
    let off = compare(theirs, ours);
    show_number(out, number as u64)?;
    show_number(out, theirs as u64)?;
    show_number(out, ours as u64)?;
    show_number(out, off)?;
    show_word(out, is_within(off))
}

// The same of a formula, whose numbers are wider. None of them reaches 32 bits here.
pub fn formula<W: Write>(out: &mut W, number: u32, theirs: u32, ours: u64) -> io::Result<()>
    ensures { OnOk result (Appends (W.contents out.old) (W.contents out.new) (figure_line number theirs (min ours 4294967295))) }
{
    figure(out, number, theirs, ours.min(4294967295) as u32)
}
