// Document 000, Examples (4) to (6): flat plates. Their moments are asked of whole floors.
use crate::alphas::outer_alpha;
use crate::areas::grade_420;
use crate::compare::{figure, formula};
use crate::edge::{edge_strip, edge_width};
use std::io;
use std::io::Write;
use stiffness::line::column_strip_width;
use stiffness::section::Section;
use strips::span::clear_length;

// Example (4), 1: the outer frame along y.
fn along_y<W: Write>(out: &mut W) -> io::Result<()> {
    formula(out, 149, 4700, clear_length(5000, 300))?;
    formula(out, 150, 3800, edge_width(7000, 600))?;
    formula(out, 153, 1550, edge_strip(5000, 7000, 600))?;
    formula(
        out,
        155,
        31900,
        outer_alpha(Section::of(300, 600), 7000, 600, 200),
    )
}

// Example (4), 2: frames along x.
fn along_x<W: Write>(out: &mut W) -> io::Result<()> {
    let width = edge_width(5000, 300);
    let strip = edge_strip(7000, 5000, 300);
    formula(out, 157, 6400, clear_length(7000, 600))?;
    formula(out, 162, 2650, width)?;
    formula(out, 163, 1400, strip)?;
    formula(out, 164, 1250, width - strip)
}

// Example (5)
fn wide_column<W: Write>(out: &mut W) -> io::Result<()> {
    formula(out, 165, 4050, clear_length(4500, 450))?;
    figure(out, 168, 1089, grade_420(5855000, 3000, 175, 145, 25).value)
}

// Example (6), where the steel of a strip of 2,750 is printed per metre: it is compared in tenths.
fn no_beams<W: Write>(out: &mut W) -> io::Result<()> {
    formula(out, 169, 5700, clear_length(6000, 300))?;
    formula(
        out,
        172,
        2750,
        column_strip_width(false, 6000, 5500, 5500, 300),
    )?;
    formula(
        out,
        174,
        11275,
        10 * (grade_420(7062000, 2750, 200, 170, 25).value as u64),
    )?;
    figure(out, 175, 990, grade_420(0, 2750, 200, 170, 25).value)
}

pub fn all<W: Write>(out: &mut W) -> io::Result<()> {
    along_y(out)?;
    along_x(out)?;
    wide_column(out)?;
    no_beams(out)
}
