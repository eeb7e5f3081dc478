// Runs the figures that other papers print, and says of each how far ours is from theirs (docs/FIGURES.md).
//
// Formulas stand here with their numbers. Whole floors come on standard input, one after another, in little-endian words of 4 bytes: the
// floor's length, how many questions, the floor's bytes; and each question: the figure's number, what is asked, the printed figure. What is asked is 0, the
// refusal; 1, the verdict; or 2 and above, a number of the table, counted from 2.
#![tactic(auto)]

mod alphas;
mod areas;
mod beams;
mod compare;
mod edge;
mod general;
mod method_limits;
mod panels;
mod plates;

use answers::Answer;
use areas::grade_420;
use compare::figure;
use plan::fields::u32_at;
use sheets::read::read_full;
use std::io;
use std::io::{Read, Write};

// The largest floor, 12 by 12 bays. There is no heap: a floor stands in an array of this size, of which a slice of its own length is handed on.
const LONGEST_FLOOR: usize = 3568;

const LARGEST_TABLE: usize = 4992;

const LARGEST_GOVERNING: usize = 1690;

// What is asked of an opened floor; 0 past its table. A number, not an enum: it is the input's format.
// Answer and table come as two, here and below, as opening gives the one and fills the other.
fn told(answer: Answer, table: &[u32], asked: usize) -> u32 {
    if asked == 0 {
        return answer.refusal;
    }
    if asked == 1 {
        return answer.value;
    }
    let place = asked - 2;
    if place < table.len() { table[place] } else { 0 }
}

fn ask<R: Read, W: Write>(
    input: &mut R,
    out: &mut W,
    answer: Answer,
    table: &[u32],
) -> io::Result<()> {
    let mut question = [0u8; 12];
    read_full(input, &mut question)?;
    let number = u32_at(&question, 0);
    let asked = u32_at(&question, 4) as usize;
    let theirs = u32_at(&question, 8);
    figure(out, number, theirs, told(answer, table, asked))
}

fn ask_all<R: Read, W: Write>(
    input: &mut R,
    out: &mut W,
    answer: Answer,
    table: &[u32],
    questions: u32,
) -> io::Result<()> {
    for _ in 0..questions {
        ask(input, out, answer, table)?;
    }
    Ok(())
}

fn with_floor<R: Read, W: Write>(
    input: &mut R,
    out: &mut W,
    floor: &mut [u8],
    questions: u32,
) -> io::Result<()> {
    let mut table = [0u32; LARGEST_TABLE];
    let mut governing = [0u32; LARGEST_GOVERNING];
    read_full(input, floor)?;
    let answer = Answer::of_verdict(moments::open(floor, &mut table, &mut governing));
    ask_all(input, out, answer, &table, questions)
}

// Runs the figures of one floor, and answers whether there was one.
fn one<R: Read, W: Write>(input: &mut R, out: &mut W) -> io::Result<bool> {
    let mut floor = [0u8; LONGEST_FLOOR];
    let mut head = [0u8; 8];
    if read_full(input, &mut head)? < 8 {
        return Ok(false);
    }
    let length = u32_at(&head, 0) as usize;
    let questions = u32_at(&head, 4);
    if length <= LONGEST_FLOOR {
        with_floor(input, out, &mut floor[..length], questions)?;
    }
    Ok(true)
}

fn formulas<W: Write>(out: &mut W) -> io::Result<()> {
    let refused = grade_420(20000000, 1000, 150, 124, 30).refusal;
    figure(out, 1, 12, refused)?;
    method_limits::all(out)?;
    beams::all(out)?;
    plates::all(out)?;
    panels::all(out)?;
    general::all(out)
}

// The loop is also that of crate calls: see there.
fn main(rt: HostRuntime) -> io::Result<()> {
    let mut input = rt.stdin();
    let mut out = rt.stdout();
    formulas(&mut out)?;
    for _ in 0..u64::MAX {
        if !one(&mut input, &mut out)? {
            break;
        }
    }
    Ok(())
}
