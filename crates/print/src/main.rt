// The printing program (01): a floor from standard input; its refusal and verdict; at verdict 0 its table, a line for each record.
#![tactic(auto)]

mod input;

ghost use Rattle.std.specs.Prelude.{◌≡◌, length, IfSome, IfOk, OnOk};
ghost use Rattle.std.specs.Io.KnownBytes.{Appends};
ghost use Rattle.sheets.specs.Wrote.{Line};
ghost use Rattle.moments.specs.Lent.{lent};
ghost use Rattle.print.specs.Sheet.{sheet_text, blank, Began, Space};

use answers::Answer;
use input::read_floor;
use plan::read::bays_of;
use sheets::pair;
use sheets::pieces::{CutOff, send, write_rows};
use std::io::{Read, Write};
use std::process::ExitCode;
use supports::SUPPORT;
use tables::places::record_count;
use tables::write::WIDTH;

// The table of the largest floor, 12 by 12 bays: 312 records. There is no heap: what is read or printed stands in arrays of fixed size, here and below.
const LARGEST: usize = 312 * WIDTH;

// And its governing negatives, of 338 supports, which are not printed.
const SUPPORTS: usize = 338 * SUPPORT;

// Where the first line ends, and how many records follow. A number, not an Option: where none follow, the count of lines to write is 0.
#[derive(Clone, Copy)]
struct Start {
    end: usize,
    records: u32,
}

// Opens the floor, and writes the first line to out.
fn begin(floor: &[u8], table: &mut [u32], governing: &mut [u32], out: &mut [u8]) -> Start
    requires { Line out.old }
    ensures { Began floor.now (lent table.old governing.old) out.old result (lent table.new governing.new) out.new }
{
    let answer = Answer::of_verdict(moments::open(floor, table, governing));
    let end = pair(answer.refusal, answer.value, out);
    if answer.value != 0 {
        return Start {
            end: end,
            records: 0,
        };
    }
    Start {
        end: end,
        records: record_count(bays_of(floor)),
    }
}

// Why a floor was not printed whole.
#[derive(Clone, Copy)]
enum Failure {
    NotRead,
    NotWritten,
}

impl From<CutOff> for Failure {
    fn from(_cut: CutOff) -> Self {
        Failure::NotWritten
    }
}

// Prints a floor, and answers how many bytes its sheet has. Where a write fails, nothing is written after it.
fn sheet<W: Write>(
    to: &mut W,
    floor: &[u8],
    table: &mut [u32],
    governing: &mut [u32],
) -> Result<usize, Failure>
    requires { Space table.old governing.old }
    ensures printed { IfOk result (λ n. n ≡ length (sheet_text floor.now (lent table.old governing.old))) }
    ensures taken { OnOk result (Appends (W.contents to.old) (W.contents to.new) (sheet_text floor.now (lent table.old governing.old))) }
{
    let mut out = [0u8; 22];
    let start = begin(floor, table, governing, &mut out);
    let end = start.end;
    let records = start.records as usize;
    let first = send(to, &out[..end])?;
    let rest = write_rows(to, table, WIDTH, records)?;
    Ok(first + rest)
}

// Prints a floor.
fn show<W: Write>(to: &mut W, floor: &[u8]) -> Result<(), Failure>
    ensures { OnOk result (Appends (W.contents to.old) (W.contents to.new) (sheet_text floor.now blank)) }
{
    let mut table = [0u32; LARGEST];
    let mut governing = [0u32; SUPPORTS];
    sheet(to, floor, &mut table, &mut governing)?;
    Ok(())
}

// Prints the floor that the input holds.
fn print<R: Read, W: Write>(input: &mut R, to: &mut W) -> Result<(), Failure>
    ensures { OnOk result (IfSome (R.remaining input.old) (λ f. Appends (W.contents to.old) (W.contents to.new) (sheet_text f blank))) }
{
    let mut bytes = [0u8; 65536];
    let input = read_floor(input, &mut bytes);
    if input.failed {
        return Err(Failure::NotRead);
    }
    let n = input.bytes;
    show(to, &bytes[..n])
}

// Where one of these lines is said, the status is 1. Of a line that cannot be said there is no one to tell.
fn main(rt: HostRuntime) -> ExitCode {
    match print(&mut rt.stdin(), &mut rt.stdout()) {
        Ok(()) => ExitCode::SUCCESS,
        Err(Failure::NotRead) => {
            let _ = eprintln!(rt; "print: standard input cannot be read, and no sheet is printed");
            ExitCode::FAILURE
        }
        Err(Failure::NotWritten) => {
            let _ = eprintln!(rt;
                "print: standard output cannot be written, and the sheet is not whole"
            );
            ExitCode::FAILURE
        }
    }
}
